// What 001 prints.
use crate::places::{steps_through, word_of};
use crate::ratios::{lowest_of, text_of};
use crate::texts::{order_of, order_of_ratios};
use std::io;

// Table 1: the words of 1 to 20.
pub fn table_one(rt: &impl Print) -> io::Result<()> {
    for i in 1..=20 {
        word_of(rt, i)?;
    }
    Ok(())
}

// Section III: keys, their quotients and their order.
pub fn section_three(rt: &impl Print) -> io::Result<()> {
    text_of(rt, 314, 100, 96)?;
    lowest_of(rt, 314, 100)?;
    steps_through(rt, b"00111010011")?;
    steps_through(rt, b"110100101")?;
    steps_through(rt, b"11010010011011")?;
    steps_through(rt, b"1101001001110111")?;
    steps_through(rt, b"001011001")?;
    order_of(rt, b"11010010011011", b"1101001001110111")?;
    order_of(rt, b"1101001001110111", b"110100101")?;
    order_of(rt, b"110100101", b"11010010011011")?;
    order_of_ratios(rt, 25, 56, 19, 44)?;
    order_of_ratios(rt, 22, 51, 19, 44)
}
