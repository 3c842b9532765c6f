// The scope's refusals: each at both sides of its limit, and which comes first.
use crate::calls::{Table, find, from};
use std::io;

// Memory that isn't 1 to 2,048 whole rows, and memory that is.
pub fn sizes(rt: &impl Print) -> io::Result<()> {
    let memory = [7; 24588];
    find(rt, b"", 0, 1, 2)?;
    find(rt, b"12345678901", 0, 1, 2)?;
    find(rt, b"123456789012", 0, 1, 2)?;
    find(rt, b"1234567890123", 0, 1, 2)?;
    find(rt, &memory[..24576], 0, 1, 2)?;
    find(rt, &memory[..24577], 0, 1, 2)?;
    find(rt, &memory, 0, 1, 2)
}

// Used rows that aren't a table's, beside some that are: denominator 0, quantity 0, a common factor, zero's other
// denominator, a ratio twice, falling ratios, more rows than there are.
pub fn rows(rt: &impl Print) -> io::Result<()> {
    let half = b"\x01\0\0\0\x02\0\0\0\x03\0\0\0";
    let twice = b"\x01\0\0\0\x02\0\0\0\x03\0\0\0\x01\0\0\0\x02\0\0\0\x03\0\0\0";
    let falling = b"\x01\0\0\0\x02\0\0\0\x03\0\0\0\x01\0\0\0\x03\0\0\0\x03\0\0\0";
    find(rt, half, 1, 1, 2)?;
    find(rt, b"\x01\0\0\0\0\0\0\0\x03\0\0\0", 1, 1, 2)?;
    find(rt, b"\x01\0\0\0\x02\0\0\0\0\0\0\0", 1, 1, 2)?;
    find(rt, b"\x02\0\0\0\x04\0\0\0\x03\0\0\0", 1, 1, 2)?;
    find(rt, b"\0\0\0\0\x02\0\0\0\x03\0\0\0", 1, 1, 2)?;
    find(rt, twice, 2, 1, 2)?;
    find(rt, falling, 2, 1, 2)?;
    find(rt, falling, 1, 1, 2)?;
    find(rt, half, 2, 1, 2)
}

// Putting in and taking out, each in the order of its refusals.
pub fn changing(rt: &impl Print, memory: &mut [u8]) -> io::Result<()> {
    let mut table = Table { memory, used: 3 };
    table.put(rt, 1, 0, 0)?;
    table.used = 0;
    table.put(rt, 1, 0, 0)?;
    table.put(rt, 1, 2, 0)?;
    table.used = 3;
    table.take(rt, 1, 0, 0)?;
    table.used = 0;
    table.take(rt, 1, 0, 0)?;
    table.take(rt, 1, 2, 0)?;
    table.take(rt, 1, 2, 1)?;
    table.show(rt)
}

// Finding and listing, each in the order of its refusals.
pub fn looking(rt: &impl Print) -> io::Result<()> {
    let table = b"123456789012";
    find(rt, table, 2, 1, 0)?;
    find(rt, table, 0, 1, 0)?;
    find(rt, table, 0, 1, 2)?;
    from(rt, table, 2, 1, 0)?;
    from(rt, table, 0, 1, 0)?;
    from(rt, table, 0, 1, 2)
}
