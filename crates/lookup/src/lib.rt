// Finding a ratio in a stock table, and listing from a ratio.
#![tactic(auto)]

ghost use Rattle.std.specs.Prelude.{◌≡◌};
ghost use Rattle.tables.specs.Layouts.{stock_rows};
ghost use Rattle.outcomes.specs.Outcomes.{leaves};
ghost use Rattle.outcomes.specs.Stocking.{stock_call, find, list_from};
ghost use Rattle.refusals.specs.Answers.{answered};
ghost use Rattle.lookup.specs.Answers.{found_as, listed_as};
ghost use Rattle.lookup.specs.Places.{place_of};

use refusals::Refusal;
use seek::Sought;
use tables::Row;

// Where a ratio's row stands, and what it holds.
#[derive(Clone, Copy)]
pub struct Found {
    pub index: usize,
    pub quantity: u32,
}

// The row of p/q.
pub fn find(table: &[u8], used: usize, p: u32, q: u32) -> Result<Found, Refusal>
    ensures { leaves (answered 2 found_as result) table.now
        ≡ stock_call stock_rows (find p q) used table.now }
{
    match seek::seek(table, used, p, q)? {
        Sought::Here { index, row } => Ok(Found {
            index,
            quantity: row.quantity,
        }),
        Sought::Absent { .. } => Err(Refusal::NoSuchRatio),
    }
}

// Where the first row at or above the ratio stands, if there is one.
fn place(sought: Sought) -> usize
    ensures { result ≡ place_of sought }
{
    match sought {
        Sought::Here { index, .. } | Sought::Absent { index, .. } => index,
    }
}

// A row, and where it stands.
#[derive(Clone, Copy)]
pub struct Listed {
    pub index: usize,
    pub row: Row,
}

// The first row at or above p/q.
pub fn list_from(table: &[u8], used: usize, p: u32, q: u32) -> Result<Option<Listed>, Refusal>
    ensures { leaves (answered 5 listed_as result) table.now
        ≡ stock_call stock_rows (list_from p q) used table.now }
{
    let index = place(seek::seek(table, used, p, q)?);
    if index < used {
        let row = judge::row_at(table, index);
        return Ok(Some(Listed { index, row }));
    }
    Ok(None)
}
