// Reading a key, from text or from a column.
#![tactic(auto)]

ghost use Rattle.std.specs.Prelude.{[], ◌≡◌};
ghost use Rattle.outcomes.specs.Outcomes.{leaves};
ghost use Rattle.outcomes.specs.Reading.{read_text, read_column};
ghost use Rattle.refusals.specs.Answers.{answered, terms_as};

use fractions::Fraction;
use refusals::Refusal;

mod find;

// The ratio of a text key, in lowest terms.
#[tactic(auto, using(crate::proofs::Replies::replies))]
pub fn read_text(k: &[u8]) -> Result<Fraction, Refusal>
    ensures { leaves (answered 2 terms_as result) [] ≡ read_text k.now }
{
    scan::judge(k)?;
    find::find(load::load_text(k)).map_err(|_used| Refusal::OutOfRange)
}

// The ratio of a column, in lowest terms. Zeros behind are fill.
#[tactic(auto, using(crate::proofs::Replies::replies))]
pub fn read_column(column: &[u8]) -> Result<Fraction, Refusal>
    ensures { leaves (answered 2 terms_as result) [] ≡ read_column column.now }
{
    let block = load::load_column(column)?;
    find::find(block).map_err(|_used| Refusal::OutOfRange)
}
