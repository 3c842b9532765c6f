// The scope's refusals: each call at both sides of its limits, and which refusal comes first.
use crate::ratios::{column_of, lowest_of, ratio_of_column, text_of};
use crate::texts::{column_of_text, cut_of, earlier_of, order_of, text_of_column};
use std::io;

// A denominator of 0, and buffers that are too short.
pub fn ratios(rt: &impl Print) -> io::Result<()> {
    text_of(rt, 7, 0, 96)?;
    text_of(rt, 7, 0, 95)?;
    text_of(rt, 19, 44, 95)?;
    column_of(rt, 7, 0, 12)?;
    column_of(rt, 7, 0, 11)?;
    column_of(rt, 19, 44, 11)?;
    column_of(rt, 19, 44, 13)?;
    lowest_of(rt, 2, 4)?;
    lowest_of(rt, 2, 0)?;
    lowest_of(rt, 0, 5)
}

// Columns that are read.
pub fn columns(rt: &impl Print) -> io::Result<()> {
    let zeros = [0; 13];
    let full = [255; 12];
    ratio_of_column(rt, &zeros[..11])?;
    ratio_of_column(rt, &zeros[..12])?;
    ratio_of_column(rt, &zeros)?;
    ratio_of_column(rt, b"\x3A\x60\0\0\0\0\0\0\0\0\0\0")?;
    ratio_of_column(rt, b"\x17\x27\0\0\0\0\0\0\0\0\0\0")?;
    ratio_of_column(rt, &full)?;
    ratio_of_column(rt, b"\xFF\xFF\xFF\xFF\0\0\0\0\0\0\0\0")?;
    ratio_of_column(rt, b"\xFF\xFF\xFF\xFF\x80\0\0\0\0\0\0\0")
}

// Columns as text.
pub fn texts(rt: &impl Print) -> io::Result<()> {
    let zeros = [0; 13];
    let full = [255; 12];
    let column = b"\x3A\x60\0\0\0\0\0\0\0\0\0\0";
    text_of_column(rt, &zeros[..11], 96)?;
    text_of_column(rt, &zeros[..12], 96)?;
    text_of_column(rt, &zeros, 96)?;
    text_of_column(rt, column, 96)?;
    text_of_column(rt, column, 95)?;
    text_of_column(rt, &full, 96)?;
    text_of_column(rt, &zeros[..11], 95)
}

// Text keys as columns.
pub fn packed(rt: &impl Print) -> io::Result<()> {
    let ones = [b'1'; 97];
    column_of_text(rt, b"00111010011", 12)?;
    column_of_text(rt, b"00111010011", 11)?;
    column_of_text(rt, &ones[..33], 12)?;
    column_of_text(rt, &ones[..96], 12)?;
    column_of_text(rt, &ones, 12)?;
    column_of_text(rt, b"", 12)?;
    column_of_text(rt, b"1x", 12)?;
    column_of_text(rt, b"10", 12)?;
    column_of_text(rt, b"10", 11)
}

// Two keys, and the first fault of the two.
pub fn comparing(rt: &impl Print) -> io::Result<()> {
    let ones = [b'1'; 97];
    let full = [b'1'; 96];
    order_of(rt, b"0", b"1")?;
    order_of(rt, b"1", b"1")?;
    order_of(rt, b"01", b"001")?;
    order_of(rt, &ones[..33], &full)?;
    order_of(rt, b"", b"2")?;
    order_of(rt, b"10", b"")?;
    order_of(rt, b"1", &ones)?;
    order_of(rt, &ones, b"2")?;
    order_of(rt, b"0001011100100111", b"1011100100111")
}

// The earlier key, the first of equal ones, and none.
pub fn earlier(rt: &impl Print) -> io::Result<()> {
    earlier_of(rt, b"0001011100100111", b"1011100100111")?;
    earlier_of(rt, b"1011100100111", b"0001011100100111")?;
    earlier_of(rt, b"01", b"01")?;
    earlier_of(rt, b"", b"1")?;
    earlier_of(rt, b"1", b"10")
}

// A key's faults come before the width, and the width before the buffer.
pub fn cutting(rt: &impl Print) -> io::Result<()> {
    cut_of(rt, b"", 0, 96)?;
    cut_of(rt, b"2", 0, 96)?;
    cut_of(rt, b"10", 97, 96)?;
    cut_of(rt, b"1", 97, 95)?;
    cut_of(rt, b"1", 96, 95)
}
