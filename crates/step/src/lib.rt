// Stepping through a text key, a quotient at a time. Between steps a caller keeps the key and its place.
#![tactic(auto)]

ghost use Rattle.std.specs.Prelude.{[], ◌≡◌};
ghost use Rattle.outcomes.specs.Outcomes.{leaves};
ghost use Rattle.outcomes.specs.Stepping.{start_text};
ghost use Rattle.refusals.specs.Answers.{answered};
ghost use Rattle.step.specs.Answers.{place_as, stepped_as, step_from};
ghost use Rattle.step.specs.Replies.{Takes};

use refusals::Refusal;
use scan::{Kind, Place, Quotient};

pub mod reader;

// What a step meets, a quotient or the end, and the place after it; at the end and where the step is refused that is
// the place handed in.
#[derive(Clone, Copy, Debug, PartialEq, Eq)]
pub struct Stepped {
    pub met: Result<Option<u32>, Refusal>,
    pub place: Place,
}

// The place after the first character of a key.
pub fn start(k: &[u8]) -> Result<Place, Refusal>
    ensures { leaves (answered 2 place_as result) [] ≡ start_text k.now }
{
    scan::judge(k)?;
    let due = if k[0] == b'1' {
        Kind::Word
    } else {
        Kind::Turned
    };
    Ok(Place { used: 1, due })
}

// The word due at a place of a key.
fn word_at(key: &[u8], place: Place) -> Result<Option<Quotient>, Refusal>
    ensures { Takes key.now place result }
{
    scan::judge(key)?;
    if place.used == 0 || 160 < place.used {
        return Err(Refusal::Outside);
    }
    scan::take_text(key, place)
}

// What is met at a place of a key.
pub fn step(k: &[u8], place: Place) -> Stepped
    ensures { stepped_as result ≡ step_from k.now place }
{
    match word_at(k, place) {
        Ok(Some(word)) => Stepped {
            met: Ok(Some(word.value)),
            place: Place {
                used: place.used + word.characters,
                due: place.due.other(),
            },
        },
        Ok(None) => Stepped {
            met: Ok(None),
            place,
        },
        Err(refusal) => Stepped {
            met: Err(refusal),
            place,
        },
    }
}
