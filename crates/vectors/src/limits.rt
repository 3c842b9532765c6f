// The scope's table, its limits, and the largest counts.
use crate::gaps::distance_of;
use crate::places::steps_through;
use crate::ratios::{column_of, ratio_of, text_of};
use crate::texts::cut_of;
use std::io;

// A row of the table, both ways.
fn row(rt: &impl Print, p: u32, q: u32, k: &[u8]) -> io::Result<()> {
    text_of(rt, p, q, 96)?;
    ratio_of(rt, k)
}

// The twelve rows.
pub fn table(rt: &impl Print) -> io::Result<()> {
    row(rt, 0, 1, b"0")?;
    row(rt, 1, 1, b"1")?;
    row(rt, 1, 2, b"01")?;
    row(rt, 5, 16, b"001011001")?;
    row(rt, 19, 44, b"00111010011")?;
    row(rt, 26, 161, b"0001011100100111")?;
    row(rt, 57, 31, b"1011100100111")?;
    row(rt, 22, 7, b"110100101")?;
    row(rt, 157, 50, b"11010010011011")?;
    row(rt, 333, 106, b"1101001001110111")?;
    row(
        rt,
        4294967295,
        1,
        b"1111111111111111111111111111111101111111111111111111111111111111",
    )?;
    row(
        rt,
        1,
        4294967295,
        b"0000000000000000000000000000000010000000000000000000000000000001",
    )
}

// Keys in range and out of it.
pub fn range(rt: &impl Print) -> io::Result<()> {
    let ones = [b'1'; 97];
    ratio_of(rt, &ones[..32])?;
    ratio_of(rt, &ones[..33])?;
    ratio_of(rt, &ones[..96])?;
    ratio_of(rt, &ones)?;
    ratio_of(rt, b"000000000000000000000000000000001")
}

// Texts that are no keys, and the two shortest keys.
pub fn faults(rt: &impl Print) -> io::Result<()> {
    let twos = [b'2'; 97];
    ratio_of(rt, b"00")?;
    ratio_of(rt, b"010")?;
    ratio_of(rt, b"0")?;
    ratio_of(rt, b"1")?;
    ratio_of(rt, b"")?;
    ratio_of(rt, b"2")?;
    ratio_of(rt, b"1a1")?;
    ratio_of(rt, b"20")?;
    ratio_of(rt, &twos)
}

// Columns, and keys cut.
pub fn cutting(rt: &impl Print) -> io::Result<()> {
    let ones = [b'1'; 97];
    let k = b"0001011100100111";
    column_of(rt, 19, 44, 12)?;
    column_of(rt, 26, 161, 12)?;
    cut_of(rt, k, 5, 96)?;
    ratio_of(rt, b"0001")?;
    distance_of(rt, k, 5)?;
    cut_of(rt, k, 0, 96)?;
    cut_of(rt, k, 1, 96)?;
    cut_of(rt, k, 96, 96)?;
    cut_of(rt, k, 97, 96)?;
    cut_of(
        rt,
        b"0000000000000000000000000000000010000000000000000000000000000001",
        33,
        96,
    )?;
    ratio_of(rt, b"000000000000000000000000000000001")?;
    cut_of(rt, &ones, 97, 96)?;
    cut_of(rt, b"0", 1, 96)?;
    cut_of(rt, k, 3, 96)
}

// The most quotients, and the most characters.
pub fn counts(rt: &impl Print) -> io::Result<()> {
    let quotients = b"0101010101010101010101010101010101010101010101";
    text_of(rt, 1836311903, 2971215073, 96)?;
    text_of(rt, 4218363952, 3792186105, 96)?;
    steps_through(rt, quotients)?;
    column_of(rt, 1836311903, 2971215073, 12)?;
    column_of(rt, 4218363952, 3792186105, 12)?;
    ratio_of(rt, quotients)?;
    ratio_of(
        rt,
        b"100001111000011110001111000011110001111000011110000111110000111100001111100001",
    )
}
