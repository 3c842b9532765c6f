// Where a ratio stands in a stock table. Memory and count, numerator and denominator come apart, as C hands them over,
// and no fact binds them, since each call judges them: structs for them would only be made to be taken apart.
#![tactic(auto)]

ghost use Rattle.std.specs.Prelude.{◌≡◌};
ghost use Rattle.seek.specs.Seeking.{same_terms, sought};

use blocks::Block;
use fractions::Fraction;
use refusals::Refusal;
use tables::Row;

// Where a ratio stands among the rows of a table. A row that is there is given as it is; of a ratio that is absent, its
// lowest terms.
#[derive(Clone, Copy)]
pub enum Sought {
    Here { index: usize, row: Row },
    Absent { index: usize, fraction: Fraction },
}

// Whether a row is of these terms.
fn has_terms(row: Row, fraction: Fraction) -> bool
    ensures { result ≡ same_terms row fraction.numerator fraction.denominator }
{
    row.numerator == fraction.numerator && row.denominator == fraction.denominator
}

// The rows are compared with the ratio's key, and of a row that isn't below it lowest terms tell whether it is the
// ratio's. Where the denominator is 0 the table is judged all the same: its faults come first.
pub fn seek(m: &[u8], used: usize, p: u32, q: u32) -> Result<Sought, Refusal>
    ensures { result ≡ sought used p q m.now }
{
    let spelled = spell::spell(p, q);
    let key = spelled.map_or(Block { high: 0, low: 0 }, |spelled| spelled.block);
    let index = judge::judge(m, used, key)?;
    let spelled = spelled?;
    let fraction = Fraction {
        numerator: p / spelled.divisor,
        denominator: q / spelled.divisor,
    };
    if index < used {
        let row = judge::row_at(m, index);
        if has_terms(row, fraction) {
            return Ok(Sought::Here { index, row });
        }
    }
    Ok(Sought::Absent { index, fraction })
}
