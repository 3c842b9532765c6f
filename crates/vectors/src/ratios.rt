// The lines on ratios: written, reduced and read.
use crate::buffers::{FILL, front, lent, refused, rest};
use crate::show;
use crate::show::{Column, Ratio, Text};
use std::{fmt, io};
use write::Written;

// A key that was written, what writing reports, and what it left of the buffer.
fn counted<K: fmt::Display + Drop>(
    rt: &impl Print,
    key: K,
    written: Written,
    rest: &str,
) -> io::Result<()> {
    let Written {
        characters,
        quotients,
    } = written;
    println!(rt; "{key}, characters {characters}, quotients {quotients}, rest {rest}")
}

// The text key of p/q, in n bytes. Text and column differ in the call, in how the key is shown and in how much of the
// buffer is its own: one function for both would take these three as arguments, and be longer.
pub fn text_of(rt: &impl Print, p: u32, q: u32, n: usize) -> io::Result<()> {
    print!(rt; "write {p}/{q} into {n} bytes: ")?;
    let mut buffer = [FILL; 128];
    match write::write_text(p, q, lent(&mut buffer, n)) {
        Ok(written) => {
            let key = Text(front(&buffer, written.characters));
            let rest = rest(&buffer, written.characters);
            counted(rt, key, written, rest)
        }
        Err(refusal) => refused(rt, refusal, &buffer),
    }
}

// The column of p/q, in n bytes.
pub fn column_of(rt: &impl Print, p: u32, q: u32, n: usize) -> io::Result<()> {
    print!(rt; "column of {p}/{q} into {n} bytes: ")?;
    let mut buffer = [FILL; 128];
    match write::write_column(p, q, lent(&mut buffer, n)) {
        Ok(written) => {
            let column = Column(front(&buffer, 12));
            let rest = rest(&buffer, 12);
            counted(rt, column, written, rest)
        }
        Err(refusal) => refused(rt, refusal, &buffer),
    }
}

// p/q in lowest terms.
pub fn lowest_of(rt: &impl Print, p: u32, q: u32) -> io::Result<()> {
    print!(rt; "lowest terms of {p}/{q}: ")?;
    show::answer(rt, reduce::lowest_terms(p, q).map(Ratio))
}

// The ratio of a text key.
pub fn ratio_of(rt: &impl Print, k: &[u8]) -> io::Result<()> {
    print!(rt; "read {}: ", Text(k))?;
    show::answer(rt, read::read_text(k).map(Ratio))
}

// The ratio of a column.
pub fn ratio_of_column(rt: &impl Print, c: &[u8]) -> io::Result<()> {
    print!(rt; "read column {}: ", Column(c))?;
    show::answer(rt, read::read_column(c).map(Ratio))
}
