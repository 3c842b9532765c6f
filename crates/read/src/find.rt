// The ratio of a block's string, by forward convergents. Two functions, one for words and one for turned words, call
// each other. A convergent is one number, denominator above numerator, and so is the answer: the last convergent, or,
// below 2^32, the characters used before the quotient that left the range. With one number each, the calls become
// jumps, and one function becomes a loop. The scope names the two functions; one loop over both kinds, with convergents
// as fractions, takes 301.7 instructions for a column of wheels, and misses the bar of 288.3.
ghost use Rattle.std.specs.Prelude.{true, false, ◌≡◌};
ghost use Rattle.blocks.specs.Blocks.{bits_of_block};
ghost use Rattle.fractions.specs.Convergents.{convergent};
ghost use Rattle.read.specs.Finding.{ratio_in, limited, bits_in, Ready, Finds, found_of};

use blocks::Block;
use fractions::Fraction;
use scan::{Kind, Place};

// The next convergent, or 0 where it is over the limit. Its terms fit, whatever the three numbers are.
#[tactic(auto, using(crate::proofs::Next::limited_over, crate::proofs::Next::limited_within))]
fn next(a: u32, u: u64, v: u64) -> u64
    ensures { result ≡ limited (convergent a (ratio_in u) (ratio_in v)) }
{
    let num = (a as u64) * (u % 4294967296) + v % 4294967296;
    let den = (a as u64) * (u / 4294967296) + v / 4294967296;
    if 4294967295 < num {
        return 0;
    }
    if 4294967295 < den {
        return 0;
    }
    den * 4294967296 + num
}

// Where a word is due. A turned word is read only below 96 characters used, and a word has at most 64: so neither count
// grows on.
#[cycle(find_turned_find_word)]
fn find_word(high: u64, low: u32, used: usize, u: u64, v: u64) -> u64
    requires { Ready 159 used u }
    ensures { Finds (bits_in high low) used false (ratio_in u) (ratio_in v) result }
{
    match scan::take(
        Block { high, low },
        Place {
            used,
            due: Kind::Word,
        },
    ) {
        Ok(Some(word)) => {
            let w = next(word.value, u, v);
            if w == 0 {
                return used as u64;
            }
            find_turned(high, low, used + word.characters, w, u)
        }
        Err(_) => used as u64,
        Ok(None) => u,
    }
}

// Where a turned word is due.
#[cycle(find_turned_find_word)]
fn find_turned(high: u64, low: u32, used: usize, u: u64, v: u64) -> u64
    requires { Ready 223 used u }
    ensures { Finds (bits_in high low) used true (ratio_in u) (ratio_in v) result }
{
    match scan::take(
        Block { high, low },
        Place {
            used,
            due: Kind::Turned,
        },
    ) {
        Ok(Some(word)) => {
            let w = next(word.value, u, v);
            if w == 0 {
                return used as u64;
            }
            find_word(high, low, used + word.characters, w, u)
        }
        Err(_) => used as u64,
        Ok(None) => u,
    }
}

// The value of a block's string, or the characters before the quotient that left the range. The first character gives
// the first convergents: 1/0 and 0/1 before a word, and after the quotient 0 those before a turned word, 0/1 and 1/0.
pub fn find(b: Block) -> Result<Fraction, usize>
    ensures { result ≡ found_of (bits_of_block b) }
{
    let high = b.high;
    let low = b.low;
    let r = if high < 0x8000_0000_0000_0000 {
        find_turned(high, low, 1, 4294967296, 1)
    } else {
        find_word(high, low, 1, 1, 4294967296)
    };
    if r < 4294967296 {
        return Err(r as usize);
    }
    Ok(Fraction {
        numerator: (r % 4294967296) as u32,
        denominator: (r / 4294967296) as u32,
    })
}
