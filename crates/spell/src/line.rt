// A string of at most 96 bits as a number, right-aligned, with a count of its bits. A word is appended by shifting and
// adding.
ghost use Rattle.std.specs.Prelude.{◌*◌, ◌^◌, ◌≤◌, ◌<◌};

use blocks::Block;
use std::marker::Model;

#[derive(Clone, Copy)]
pub struct Line {
    number: u128,
    bits: u32,
}

impl Model for Line {
    ghost use Rattle.bits.specs.Strings.{Bits};

    ghost Value = { Bits };

    ghost use Rattle.spell.specs.Lines.{string_of, IsLine};

    ghost view = { string_of };

    ghost invariant = { IsLine };

    ghost use Rattle.spell.specs.Lines.{line_of, line-back};

    ghost inverse = { line_of };

    ghost inverse_ok = { λ l line. line-back l line };
}

// The k for which 2^k is the highest binary digit of a. Setting the lowest digit doesn't change it: so the compiler has
// no case for 0 and sees that a word's shifts stay below 64. Without that, keys of wheels take about a fifth more
// instructions.
fn highest(a: u32) -> u32
    requires { 1 ≤ a }
    ensures power_le { 2 ^ result ≤ a }
    ensures next_power_gt { a < 2 * 2 ^ result }
    ensures bound { result < 32 }
{
    (a | 1).ilog2()
}

// The string of one bit.
impl From<bool> for Line {
    ghost use Rattle.std.specs.Prelude.{◌≡◌, [], ◌∷◌};

    ghost from_gives = { λ bit line. line ≡ bit ∷ [] };

    fn from(bit: bool) -> Line {
        Line {
            number: bit as u128,
            bits: 1,
        }
    }
}

impl Line {
    ghost use Rattle.std.specs.Prelude.{◌≡◌, ◌+◌, ◌^◌, ◌≤◌, ◌<◌, ◌++◌, length};
    ghost use Rattle.bits.specs.Strings.{turn};
    ghost use Rattle.bits.specs.Binary.{digits_in};
    ghost use Rattle.families.specs.Words.{word_of};

    // n bits more, those of w. They are joined by |, which carries nothing from one machine word to the next.
    fn append(&mut self, w: u64, n: u32)
        requires within { w < 2 ^ n }
        requires room { length self.old + n ≤ 96 }
        ensures { self.new ≡ self.old ++ digits_in n w }
    {
        self.number = (self.number << n) | w as u128;
        self.bits += n;
    }

    // The word of a number a whose highest binary digit is 2^k: k ones, a zero and the k digits behind the highest.
    pub fn append_word(&mut self, a: u32)
        requires some { 1 ≤ a }
        requires room { length self.old + length (word_of a) ≤ 96 }
        ensures { self.new ≡ self.old ++ word_of a }
    {
        let k = highest(a);
        let top = 1u64 << k;
        self.append(2 * ((top - 1) << k) + (a as u64 - top), 2 * k + 1);
    }

    // The turned word is 2^(2k+1) - 1 less that, which is 3 * 2^k - 1 - a.
    pub fn append_turned(&mut self, a: u32)
        requires some { 1 ≤ a }
        requires room { length self.old + length (word_of a) ≤ 96 }
        ensures { self.new ≡ self.old ++ turn (word_of a) }
    {
        let k = highest(a);
        self.append((3 << k) - 1 - (a as u64), 2 * k + 1);
    }
}

// The block of the string, which moves to the top of its 96 bits.
impl From<Line> for Block {
    ghost use Rattle.std.specs.Prelude.{◌≡◌};
    ghost use Rattle.blocks.specs.Blocks.{block_of};

    ghost from_gives = { λ line block. block ≡ block_of line };

    fn from(line: Line) -> Block {
        let raised = line.number << (96 - line.bits);
        Block {
            high: (raised >> 32) as u64,
            low: (raised % (1 << 32)) as u32,
        }
    }
}
