// The word in front of 64 bits.
ghost use Rattle.std.specs.Prelude.{◌≡◌, Bool, false, drop};
ghost use Rattle.bits.specs.Strings.{Bits};
ghost use Rattle.bits.specs.Binary.{number_of, first_bits};
ghost use Rattle.blocks.specs.Blocks.{bits_of_block};
ghost use Rattle.families.specs.Families.{ended};
ghost use Rattle.scan.specs.Runs.{Counted};
ghost use Rattle.scan.specs.Taking.{taken_from};

use crate::Quotient;
use blocks::Block;
use refusals::Refusal;

// The 64 bits of a block after the first used, extended by zeros.
pub fn window(b: Block, used: usize) -> u64
    ensures { result ≡ number_of (first_bits false 64 (drop used (bits_of_block b))) }
{
    let rest = (b.low as u64) << 32;
    if used < 64 {
        return (b.high << used) + (rest >> 1 >> (63 - used));
    }
    if used < 96 {
        return rest << (used - 64);
    }
    0
}

// The ones in front of w, counted until a zero is met, or until there are more than 31. The scope names this form, a
// loop that yields the count by break; so it stands here and in `texts`.
fn run(w: u64) -> u32
    ensures { Counted w result }
{
    let mut left = w;
    let mut n = 0;
    loop {
        if 31 < n {
            break n;
        }
        if left < 0x8000_0000_0000_0000 {
            break n;
        }
        left = left << 1;
        n += 1;
    }
}

// The word in front of w. Its run says how many digits follow the zero that stops it; a leading one goes before them.
pub fn word(w: u64) -> Result<Option<Quotient>, Refusal>
    ensures { (z : Bool) (s : Bits) → ended z s ≡ false → number_of (first_bits z 64 s) ≡ w → result ≡ taken_from z s }
{
    let r = run(w);
    if 31 < r {
        return Err(Refusal::OutOfRange);
    }
    Ok(Some(Quotient {
        value: (((w << r) + 0x8000_0000_0000_0000) >> (63 - r)) as u32,
        characters: (2 * r + 1) as usize,
    }))
}
