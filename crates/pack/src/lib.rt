// Changing between a column and a text key.
#![tactic(auto)]

ghost use Rattle.std.specs.Prelude.{◌≡◌};
ghost use Rattle.outcomes.specs.Outcomes.{leaves};
ghost use Rattle.outcomes.specs.Packing.{column_to_text, text_to_column};
ghost use Rattle.refusals.specs.Answers.{answered, one_as, none_as};

use refusals::Refusal;

// The text key of a column at the front of out, and how many characters it has.
#[tactic(auto, using(crate::proofs::Replies::column_wrong))]
pub fn column_to_text(column: &[u8], out: &mut [u8]) -> Result<usize, Refusal>
    ensures { leaves (answered 1 one_as result) out.new ≡ column_to_text column.now out.old }
{
    let block = load::load_column(column)?;
    put::put_text(block, out)
}

// The column of a text key at the front of out.
#[tactic(auto, using(crate::proofs::Replies::text_faulty))]
pub fn text_to_column(k: &[u8], out: &mut [u8]) -> Result<(), Refusal>
    ensures { leaves (answered 0 none_as result) out.new ≡ text_to_column k.now out.old }
{
    scan::judge(k)?;
    put::put_column(load::load_text(k), out)?;
    Ok(())
}
