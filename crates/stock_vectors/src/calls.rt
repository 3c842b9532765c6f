// A line for a call on a table: the case, and what the call answered.
use std::io;
use stock_structs::{Found, Listed, Stocked};

// The ratio of a case, and how much memory and how many rows the call is lent.
fn case(rt: &impl Print, memory: &[u8], used: usize, p: u32, q: u32) -> io::Result<()> {
    print!(rt; "{p}/{q} in {} bytes, used {used}: ", memory.len())
}

// A row's index and its quantity, or the refusal's number.
fn row(rt: &impl Print, refusal: u32, index: usize, quantity: u32) -> io::Result<()> {
    match refusal {
        0 => print!(rt; "row {index}, quantity {quantity}"),
        _ => print!(rt; "refused {refusal}"),
    }
}

// The memory of a table that calls change, and how many of its rows are used.
#[derive(Drop)]
pub struct Table<'a> {
    pub memory: &'a mut [u8],
    pub used: usize,
}

impl Table<'_> {
    // What putting in or taking out gave. Where it refuses, as many rows are used as before.
    fn stocked(&mut self, rt: &impl Print, answer: Stocked) -> io::Result<()> {
        row(rt, answer.refusal, answer.row, answer.quantity)?;
        if answer.refusal == 0 {
            self.used = answer.used;
            print!(rt; ", used {}", self.used)?;
        }
        println!(rt)
    }

    // n of p/q put in. This and the next each make their own call: a function that is passed the call would need a
    // clause that it may be called, and these two would be no shorter.
    pub fn put(&mut self, rt: &impl Print, p: u32, q: u32, n: u32) -> io::Result<()> {
        print!(rt; "put {n} of ")?;
        let used = self.used;
        case(rt, self.memory, used, p, q)?;
        let answer = stock::put_in(self.memory, used, p, q, n);
        self.stocked(rt, answer.into())
    }

    // n of p/q taken out.
    pub fn take(&mut self, rt: &impl Print, p: u32, q: u32, n: u32) -> io::Result<()> {
        print!(rt; "take {n} of ")?;
        let used = self.used;
        case(rt, self.memory, used, p, q)?;
        let answer = draw::take_out(self.memory, used, p, q, n);
        self.stocked(rt, answer.into())
    }

    // Every byte of its memory.
    pub fn show(&self, rt: &impl Print) -> io::Result<()> {
        print!(rt; "memory")?;
        for byte in self.memory.iter() {
            print!(rt; " {byte}")?;
        }
        println!(rt)
    }
}

// The row of p/q. A table that is only read has no count to go on with, so its two parts stay arguments.
pub fn find(rt: &impl Print, memory: &[u8], used: usize, p: u32, q: u32) -> io::Result<()> {
    print!(rt; "find ")?;
    case(rt, memory, used, p, q)?;
    let answer = Found::from(lookup::find(memory, used, p, q));
    row(rt, answer.refusal, answer.row, answer.quantity)?;
    println!(rt)
}

// The first row from p/q on.
pub fn from(rt: &impl Print, memory: &[u8], used: usize, p: u32, q: u32) -> io::Result<()> {
    print!(rt; "from ")?;
    case(rt, memory, used, p, q)?;
    let answer = Listed::from(lookup::list_from(memory, used, p, q));
    row(rt, answer.refusal, answer.row, answer.quantity)?;
    print!(rt; ", ratio {}/{}", answer.numerator, answer.denominator)?;
    println!(rt; ", found {}", answer.found as u8)
}
