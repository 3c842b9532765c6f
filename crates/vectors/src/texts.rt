// The lines on text keys: compared, cut, and changed between column and text.
use crate::buffers::{FILL, front, lent, refused, rest};
use crate::show::{Column, Standing, Text};
use crate::{buffers, show};
use refusals::Refusal;
use std::cmp::Ordering;
use std::io;

// How two keys stand.
pub fn order_of(rt: &impl Print, j: &[u8], k: &[u8]) -> io::Result<()> {
    print!(rt; "compare {} {}: ", Text(j), Text(k))?;
    show::answer(rt, compare::compare(j, k).map(Standing))
}

// What comparing the keys of p/q and r/s finds.
fn standing(p: u32, q: u32, r: u32, s: u32) -> Result<Ordering, Refusal> {
    let mut first = [FILL; 128];
    let mut second = [FILL; 128];
    let j = write::write_text(p, q, &mut first)?;
    let k = write::write_text(r, s, &mut second)?;
    compare::compare(front(&first, j.characters), front(&second, k.characters))
}

// How the keys of p/q and r/s stand.
pub fn order_of_ratios(rt: &impl Print, p: u32, q: u32, r: u32, s: u32) -> io::Result<()> {
    print!(rt; "compare the keys of {p}/{q} and {r}/{s}: ")?;
    show::answer(rt, standing(p, q, r, s).map(Standing))
}

// The earlier of two keys.
pub fn earlier_of<'a>(rt: &impl Print, j: &'a [u8], k: &'a [u8]) -> io::Result<()> {
    print!(rt; "earlier of {} {}: ", Text(j), Text(k))?;
    let earlier = compare::earlier(j, k);
    if earlier.is_empty() {
        println!(rt; "none")
    } else {
        println!(rt; "{}", Text(earlier))
    }
}

// A key cut to a width, in n bytes.
pub fn cut_of(rt: &impl Print, k: &[u8], width: usize, n: usize) -> io::Result<()> {
    print!(rt; "cut {} to {width} into {n} bytes: ", Text(k))?;
    let mut buffer = [FILL; 128];
    let answer = cut::cut(k, width, lent(&mut buffer, n));
    buffers::key(rt, &buffer, answer)
}

// The text key of a column, in n bytes.
pub fn text_of_column(rt: &impl Print, c: &[u8], n: usize) -> io::Result<()> {
    print!(rt; "text of column {} into {n} bytes: ", Column(c))?;
    let mut buffer = [FILL; 128];
    let answer = pack::column_to_text(c, lent(&mut buffer, n));
    buffers::key(rt, &buffer, answer)
}

// The column of a text key, in n bytes.
pub fn column_of_text(rt: &impl Print, k: &[u8], n: usize) -> io::Result<()> {
    print!(rt; "column of text {} into {n} bytes: ", Text(k))?;
    let mut buffer = [FILL; 128];
    match pack::text_to_column(k, lent(&mut buffer, n)) {
        Ok(()) => {
            let column = Column(front(&buffer, 12));
            let rest = rest(&buffer, 12);
            println!(rt; "{column}, rest {rest}")
        }
        Err(refusal) => refused(rt, refusal, &buffer),
    }
}
