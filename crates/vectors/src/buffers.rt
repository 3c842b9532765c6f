// Buffers of 128 bytes: what is lent of them, and what a call left.
ghost use Rattle.std.specs.Prelude.{true, ◌≡◌, ℕ, ◌<◌, get_or, length, take};

use crate::show::Text;
use refusals::Refusal;
use std::io;

// Every byte of a buffer before it is lent, so that a change shows.
pub const FILL: u8 = 7;

// The first n bytes of s, or all where there are fewer, for a call that writes.
pub fn lent(s: &mut [u8], n: usize) -> &mut [u8]
    ensures { result.now ≡ take n s.old }
{
    let n = n.min(s.len());
    &mut s[..n]
}

// The first n bytes of s, or all where there are fewer.
pub fn front(s: &[u8], n: usize) -> &[u8]
    ensures { result.now ≡ take n s.now }
{
    &s[..n.min(s.len())]
}

// Whether bytes of a buffer are as they were lent.
fn kept(bytes: &[u8]) -> bool
    ensures { result ≡ true → (k : ℕ) → k < length bytes.now → get_or bytes.now k 0 ≡ 7 }
{
    bytes.iter().all(|byte| *byte == FILL)
}

// What a call left of a buffer behind the first bytes, own in number.
pub fn rest(buffer: &[u8; 128], own: usize) -> &'static str {
    if kept(&buffer[own.min(128)..]) {
        "kept"
    } else {
        "changed"
    }
}

// A key at the front of a buffer, how many characters it has, and the end of the line; or the refusal.
pub fn key(rt: &impl Print, buffer: &[u8; 128], answer: Result<usize, Refusal>) -> io::Result<()> {
    match answer {
        Ok(characters) => {
            let key = Text(front(buffer, characters));
            let rest = rest(buffer, characters);
            println!(rt; "{key}, characters {characters}, rest {rest}")
        }
        Err(refusal) => refused(rt, refusal, buffer),
    }
}

// A refusal of a call that was lent a buffer, and the end of the line.
pub fn refused(rt: &impl Print, refusal: Refusal, buffer: &[u8; 128]) -> io::Result<()> {
    let all = rest(buffer, 0);
    println!(rt; "{refusal}, all {all}")
}
