// The key of a ratio in two machine words, by one Euclid: quotients don't depend on common factors, so none is taken
// out first, and the last divisor is the greatest common one.
#![tactic(auto)]

ghost use Rattle.std.specs.Prelude.{◌≡◌, ◌+◌, ◌++◌, length};
ghost use Rattle.fractions.specs.Fractions.{gcd};
ghost use Rattle.spell.specs.Spelling.{spelling, spelt, to_come, words_to_come, Room};

use blocks::Block;
use line::Line;
use refusals::Refusal;

mod line;

// A key's block, the quotients written, and the greatest common divisor of numerator and denominator.
#[derive(Clone, Copy)]
pub struct Spelled {
    pub block: Block,
    pub quotients: u32,
    pub divisor: u32,
}

// The words of d/r, the turned one first, after what line holds. Each turn of the loop appends a turned word and a
// word: no flag says which is due, and a ratio that has ended has no case of its own.
fn go_on(mut d: u32, mut r: u32, mut line: Line, mut quotients: u32) -> Spelled
    requires { Room d r line quotients }
    ensures { result ≡ spelt (line ++ words_to_come d r) (quotients + length (to_come d r)) (gcd d r) }
{
    while r != 0 {
        let t = (d - 1) % r + 1;
        line.append_turned((d - 1) / r);
        line.append_word(r / t);
        d = t;
        r %= t;
        quotients += 2;
    }
    Spelled {
        block: Block::from(line),
        quotients,
        divisor: d,
    }
}

// The key of p/q. From 1 on it begins with 1 and the word of the whole part, below 1 with 0.
#[tactic(auto, unfolding(crate::specs::Spelling::spelling))]
pub fn spell(p: u32, q: u32) -> Result<Spelled, Refusal>
    ensures { result ≡ spelling p q }
{
    if q == 0 {
        return Err(Refusal::ZeroDenominator);
    }
    let a = p / q;
    let r = p % q;
    if a == 0 {
        return Ok(go_on(q, r, Line::from(false), 0));
    }
    let mut line = Line::from(true);
    line.append_word(a);
    Ok(go_on(q, r, line, 1))
}
