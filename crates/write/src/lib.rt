// Writing the key of a ratio, as text and as a column. Each of the two takes its three steps itself: one function over
// the step that puts out would need clauses on what a call of it asks, gives and leaves in memory, which are longer.
#![tactic(auto)]

ghost use Rattle.std.specs.Prelude.{◌≡◌};
ghost use Rattle.outcomes.specs.Outcomes.{leaves};
ghost use Rattle.outcomes.specs.Writing.{write_text, write_column};
ghost use Rattle.refusals.specs.Answers.{answered};
ghost use Rattle.write.specs.Answers.{written_as};

use refusals::Refusal;

// What was written: the key's characters, and its quotients.
#[derive(Clone, Copy)]
pub struct Written {
    pub characters: usize,
    pub quotients: u32,
}

// The key of p/q as text at the front of out.
pub fn write_text(p: u32, q: u32, out: &mut [u8]) -> Result<Written, Refusal>
    ensures { leaves (answered 2 written_as result) out.new ≡ write_text p q out.old }
{
    let key = spell::spell(p, q)?;
    let characters = put::put_text(key.block, out)?;
    Ok(Written {
        characters,
        quotients: key.quotients,
    })
}

// The key of p/q as a column at the front of out.
pub fn write_column(p: u32, q: u32, out: &mut [u8]) -> Result<Written, Refusal>
    ensures { leaves (answered 2 written_as result) out.new ≡ write_column p q out.old }
{
    let key = spell::spell(p, q)?;
    let characters = put::put_column(key.block, out)?;
    Ok(Written {
        characters,
        quotients: key.quotients,
    })
}
