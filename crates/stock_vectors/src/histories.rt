// Tables from their first row on.
use crate::calls::{Table, find, from};
use std::io;

// Rows come, grow and go.
pub fn counter(rt: &impl Print, memory: &mut [u8]) -> io::Result<()> {
    let mut table = Table { memory, used: 0 };
    table.put(rt, 57, 31, 4)?;
    table.put(rt, 26, 161, 10)?;
    table.put(rt, 40, 60, 3)?;
    table.put(rt, 20, 30, 2)?;
    table.show(rt)?;
    table.take(rt, 26, 161, 10)?;
    table.take(rt, 57, 31, 1)?;
    table.take(rt, 57, 31, 4)?;
    table.show(rt)
}

// The lowest ratio and the highest, a full table, the largest quantity.
pub fn limits(rt: &impl Print, memory: &mut [u8]) -> io::Result<()> {
    let mut table = Table { memory, used: 0 };
    table.put(rt, 4294967295, 1, 1)?;
    table.put(rt, 0, 7, 1)?;
    table.put(rt, 1, 4294967295, 1)?;
    table.put(rt, 2, 1, 1)?;
    table.put(rt, 0, 1, 4294967294)?;
    table.put(rt, 0, 1, 1)?;
    table.show(rt)
}

// Rows of 1/3 and 1/2, listed from ratios at, between and past them.
pub fn listing(rt: &impl Print) -> io::Result<()> {
    let table = b"\x01\0\0\0\x03\0\0\0\x05\0\0\0\x01\0\0\0\x02\0\0\0\x04\0\0\0";
    from(rt, table, 0, 1, 3)?;
    from(rt, table, 2, 0, 1)?;
    from(rt, table, 2, 1, 3)?;
    from(rt, table, 2, 2, 5)?;
    from(rt, table, 2, 2, 4)?;
    from(rt, table, 2, 1, 1)?;
    find(rt, table, 2, 2, 4)
}
