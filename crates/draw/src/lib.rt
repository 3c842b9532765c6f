// Taking out of a stock table.
#![tactic(auto)]

ghost use Rattle.std.specs.Prelude.{◌≡◌};
ghost use Rattle.tables.specs.Layouts.{stock_rows};
ghost use Rattle.outcomes.specs.Outcomes.{leaves};
ghost use Rattle.outcomes.specs.Stocking.{stock_call, take_out};
ghost use Rattle.refusals.specs.Answers.{answered};
ghost use Rattle.seek.specs.Answers.{stocked_as};

use refusals::Refusal;
use seek::Sought;
use tables::{Row, Stocked};

// Takes n of p/q out. A row that has none left goes.
pub fn take_out(table: &mut [u8], used: usize, p: u32, q: u32, n: u32) -> Result<Stocked, Refusal>
    ensures { leaves (answered 3 stocked_as result) table.new
        ≡ stock_call stock_rows (take_out p q n) used table.old }
{
    let sought = seek::seek(table, used, p, q)?;
    if n == 0 {
        return Err(Refusal::NoQuantity);
    }
    let Sought::Here { index, row } = sought else {
        return Err(Refusal::NoSuchRatio);
    };
    let quantity = row.quantity.checked_sub(n).ok_or(Refusal::TooFew)?;
    if quantity == 0 {
        shift::remove(table, index, used);
        return Ok(Stocked {
            used: used - 1,
            index,
            quantity,
        });
    }
    rows::put(table, index, Row { quantity, ..row });
    Ok(Stocked {
        used,
        index,
        quantity,
    })
}
