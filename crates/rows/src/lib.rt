// A row put into the memory of a stock table.
#![tactic(auto)]

ghost use Rattle.std.specs.Prelude.{◌≡◌};
ghost use Rattle.tables.specs.Layouts.{stock_rows};
ghost use Rattle.tables.specs.Moves.{put_at};

use tables::Row;

// A row as row i; nothing where memory has no such row.
#[tactic(auto, unfolding(tables::specs::Moves::put_at))]
pub fn put(m: &mut [u8], i: usize, row: Row)
    ensures { m.new ≡ put_at stock_rows i row m.old }
{
    if m.len() / Row::SIZE <= i {
        return;
    }
    let at = Row::SIZE * i;
    m[at..at + 4].copy_from_slice(&row.numerator.to_le_bytes());
    m[at + 4..at + 8].copy_from_slice(&row.denominator.to_le_bytes());
    m[at + 8..at + 12].copy_from_slice(&row.quantity.to_le_bytes());
}
