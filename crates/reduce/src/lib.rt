// Greatest common divisor and lowest terms.
#![tactic(auto)]

ghost use Rattle.std.specs.Prelude.{◌≡◌, []};
ghost use Rattle.fractions.specs.Fractions.{gcd};
ghost use Rattle.outcomes.specs.Outcomes.{leaves};
ghost use Rattle.outcomes.specs.Reading.{reduce};
ghost use Rattle.refusals.specs.Answers.{answered, terms_as};

use fractions::Fraction;
use refusals::Refusal;

// By repeated remainder: the second number falls at each call.
pub fn greatest_divisor(a: u32, b: u32) -> u32
    ensures { result ≡ gcd a b }
{
    if b == 0 {
        return a;
    }
    greatest_divisor(b, a % b)
}

// p/q in lowest terms.
#[tactic(auto, unfolding(outcomes::specs::Reading::reduce, fractions::specs::Fractions::lowest_terms))]
pub fn lowest_terms(p: u32, q: u32) -> Result<Fraction, Refusal>
    ensures { leaves (answered 2 terms_as result) [] ≡ reduce p q }
{
    if q == 0 {
        return Err(Refusal::ZeroDenominator);
    }
    let g = greatest_divisor(p, q);
    Ok(Fraction {
        numerator: p / g,
        denominator: q / g,
    })
}
