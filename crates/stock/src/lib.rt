// Putting into a stock table.
#![tactic(auto)]

ghost use Rattle.std.specs.Prelude.{◌≡◌};
ghost use Rattle.tables.specs.Layouts.{stock_rows};
ghost use Rattle.outcomes.specs.Outcomes.{leaves};
ghost use Rattle.outcomes.specs.Stocking.{stock_call, put_in};
ghost use Rattle.refusals.specs.Answers.{answered};
ghost use Rattle.seek.specs.Answers.{stocked_as};

use refusals::Refusal;
use seek::Sought;
use tables::{Row, Stocked};

// Puts n of p/q in: adds to its row, or makes one in its place.
pub fn put_in(table: &mut [u8], used: usize, p: u32, q: u32, n: u32) -> Result<Stocked, Refusal>
    ensures { leaves (answered 3 stocked_as result) table.new
        ≡ stock_call stock_rows (put_in p q n) used table.old }
{
    let sought = seek::seek(table, used, p, q)?;
    if n == 0 {
        return Err(Refusal::NoQuantity);
    }
    match sought {
        Sought::Here { index, row } => {
            let quantity = row.quantity.checked_add(n).ok_or(Refusal::LargeSum)?;
            rows::put(table, index, Row { quantity, ..row });
            Ok(Stocked {
                used,
                index,
                quantity,
            })
        }
        Sought::Absent { index, fraction } => {
            if used == table.len() / Row::SIZE {
                return Err(Refusal::TableFull);
            }
            let row = Row {
                numerator: fraction.numerator,
                denominator: fraction.denominator,
                quantity: n,
            };
            shift::insert(table, index, used, row);
            Ok(Stocked {
                used: used + 1,
                index,
                quantity: n,
            })
        }
    }
}
