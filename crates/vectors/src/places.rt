// The lines on places: started and stepped from; and a word, as what a step passes.
ghost use Rattle.std.specs.Prelude.{◌≡◌, get_or};

use crate::buffers::{FILL, front};
use crate::show;
use crate::show::{At, Met, Text};
use refusals::Refusal;
use scan::{Kind, Place};
use std::{fmt, io};
use step::Stepped;

// The character at an index of a key extended by zeros.
fn character(k: &[u8], i: usize) -> u8
    ensures { result ≡ get_or k.now i 48 }
{
    k.get(i).copied().unwrap_or(b'0')
}

// A word of a key: the place where it is due, and what a step there gives.
#[derive(Clone, Copy)]
struct Word<'a> {
    key: &'a [u8],
    place: Place,
    stepped: Stepped,
}

// The quotient that the step finds, and the characters that it passes.
impl fmt::Display for Word<'_> {
    fn fmt<W: fmt::Write>(&self, f: &mut fmt::Formatter<W>) -> fmt::Result {
        write!(f, "{}: ", Met(self.stepped.met))?;
        for i in self.place.used..self.stepped.place.used {
            write!(f, "{}", character(self.key, i) as char)?;
        }
        Ok(())
    }
}

// The first word in the key of i/1.
fn first_word(i: u32, buffer: &mut [u8]) -> Result<Word<'_>, Refusal> {
    let written = write::write_text(i, 1, buffer)?;
    let key = front(buffer, written.characters);
    let place = step::start(key)?;
    let stepped = step::step(key, place);
    Ok(Word {
        key,
        place,
        stepped,
    })
}

// The word of i.
pub fn word_of(rt: &impl Print, i: u32) -> io::Result<()> {
    print!(rt; "word of ")?;
    show::answer(rt, first_word(i, &mut [FILL; 128]))
}

// The place where a key starts.
pub fn start_of(rt: &impl Print, k: &[u8]) -> io::Result<()> {
    print!(rt; "start {}: ", Text(k))?;
    show::answer(rt, step::start(k).map(At))
}

// One step from a place of a key.
pub fn step_from(rt: &impl Print, k: &[u8], used: usize, due: Kind) -> io::Result<()> {
    let from = Place { used, due };
    let Stepped { met, place } = step::step(k, from);
    println!(rt;
        "step {} from {}: {}, place {}",
        Text(k),
        At(from),
        Met(met),
        At(place)
    )
}

// At most 100 steps from a place, up to the end or a refusal.
fn steps_from(rt: &impl Print, k: &[u8], from: Place) -> io::Result<()> {
    let mut place = from;
    for _ in 0..100 {
        let stepped = step::step(k, place);
        print!(rt; "{}", Met(stepped.met))?;
        let Ok(Some(_)) = stepped.met else {
            return println!(rt);
        };
        print!(rt; ", ")?;
        place = stepped.place;
    }
    println!(rt; "and on")
}

// Every step through a key.
pub fn steps_through(rt: &impl Print, k: &[u8]) -> io::Result<()> {
    print!(rt; "steps through {}: ", Text(k))?;
    match step::start(k) {
        Ok(place) => steps_from(rt, k, place),
        Err(refusal) => println!(rt; "{refusal}"),
    }
}
