// The numbers of a row, read where it stands in memory.
ghost use Rattle.std.specs.Prelude.{◌≡◌, ◌+◌, ◌≤◌, length, drop};
ghost use Rattle.tables.specs.Rows.{row_of};

use tables::Row;

// The row that begins at a place.
pub fn row_from(m: &[u8], at: usize) -> Row
    requires { at + 12 ≤ length m.now }
    ensures { result ≡ row_of (drop at m.now) }
{
    Row {
        numerator: u32::from_le_bytes(m[at..at + 4].try_into().unwrap()),
        denominator: u32::from_le_bytes(m[at + 4..at + 8].try_into().unwrap()),
        quantity: u32::from_le_bytes(m[at + 8..at + 12].try_into().unwrap()),
    }
}
