// The line on the distance between a key and what is kept of it when it is cut.
ghost use Rattle.std.specs.Prelude.{◌≡◌, ◌*◌};

use crate::buffers::{FILL, front};
use crate::show::Text;
use fractions::Fraction;
use refusals::Refusal;
use std::{fmt, io};

// Both sides of the bound, gap * 3^(n-1) < 2^(n-1) * qb, where a/b is what a cut to n characters kept of p/q, and gap
// is pb - aq.
#[derive(Clone, Copy)]
struct Bound {
    gap: u64,
    threes: u64,
    left: u64,
    twos: u64,
    qb: u64,
    right: u64,
}

impl Bound {
    // There is none where a/b is above p/q, or a number leaves 64 bits.
    fn of(whole: Fraction, part: Fraction, n: usize) -> Option<Bound> {
        let pb = product(whole.numerator, part.denominator);
        let aq = product(part.numerator, whole.denominator);
        let qb = product(whole.denominator, part.denominator);
        let gap = pb.checked_sub(aq)?;
        let exponent = u32::try_from(n.checked_sub(1)?).ok()?;
        let threes = 3u64.checked_pow(exponent)?;
        let twos = 2u64.checked_pow(exponent)?;
        let left = gap.checked_mul(threes)?;
        let right = twos.checked_mul(qb)?;
        Some(Bound {
            gap,
            threes,
            left,
            twos,
            qb,
            right,
        })
    }
}

impl fmt::Display for Bound {
    fn fmt<W: fmt::Write>(&self, f: &mut fmt::Formatter<W>) -> fmt::Result {
        let Bound {
            gap,
            threes,
            left,
            twos,
            qb,
            right,
        } = *self;
        let stands = if left < right { "below" } else { "not below" };
        write!(
            f,
            "{gap} times {threes} is {left}, {stands} {twos} times {qb}"
        )
    }
}

fn product(a: u32, b: u32) -> u64
    ensures { result ≡ a * b }
{
    u64::from(a) * u64::from(b)
}

// The values of a key and of what a cut to a width keeps of it.
fn cut_apart(k: &[u8], width: usize) -> Result<(Fraction, Fraction), Refusal> {
    let mut buffer = [FILL; 128];
    let characters = cut::cut(k, width, &mut buffer)?;
    let whole = read::read_text(k)?;
    let part = read::read_text(front(&buffer, characters))?;
    Ok((whole, part))
}

// The distance of a key and what is kept of it.
pub fn distance_of(rt: &impl Print, k: &[u8], width: usize) -> io::Result<()> {
    print!(rt; "distance of {} cut to {width}: ", Text(k))?;
    match cut_apart(k, width) {
        Ok((whole, part)) => match Bound::of(whole, part, width) {
            Some(bound) => println!(rt; "{bound}"),
            None => println!(rt; "none"),
        },
        Err(refusal) => println!(rt; "{refusal}"),
    }
}
