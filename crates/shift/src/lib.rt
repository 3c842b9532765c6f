// Rows inserted and removed in the memory of a stock table. Where memory has no such row, nothing is done.
#![tactic(auto)]

ghost use Rattle.std.specs.Prelude.{◌≡◌};
ghost use Rattle.tables.specs.Layouts.{stock_rows};
ghost use Rattle.tables.specs.Moves.{inserted_at, removed_at};

use tables::Row;

// A row as row i; the rows from there to used move up by one.
#[tactic(auto, unfolding(tables::specs::Moves::inserted_at))]
pub fn insert(m: &mut [u8], i: usize, used: usize, row: Row)
    ensures { m.new ≡ inserted_at stock_rows i used row m.old }
{
    if used < i || m.len() / Row::SIZE <= used {
        return;
    }
    m.copy_within(Row::SIZE * i..Row::SIZE * used, Row::SIZE * (i + 1));
    rows::put(m, i, row);
}

// Row i goes: the used rows behind it move down by one, and the last of them is zeroed.
#[tactic(auto, unfolding(tables::specs::Moves::removed_at))]
pub fn remove(m: &mut [u8], i: usize, used: usize)
    ensures { m.new ≡ removed_at stock_rows i used m.old }
{
    if used <= i || m.len() / Row::SIZE < used {
        return;
    }
    m.copy_within(Row::SIZE * (i + 1)..Row::SIZE * used, Row::SIZE * i);
    m[Row::SIZE * (used - 1)..Row::SIZE * used].fill(0);
}
