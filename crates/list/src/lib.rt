// The ratio lister's work: a stretch of input to a stretch of output. What stands between two calls is the field of the
// line that isn't ended yet, so the input may be cut into stretches anywhere, and a line may have any length.
#![tactic(auto)]

ghost use Rattle.lines.specs.Machines.{lacking};
ghost use Rattle.list.specs.Ratios.{ratios};
ghost use Rattle.list.specs.Listing.{Lists};

use fields::Field;

mod answer;

// The room that an answer may take: three numerals, a key and four marks.
pub const ROOM: usize = 130;

// How many bytes of the input were taken and how many written, and the field of the line that isn't ended yet.
#[derive(Clone, Copy)]
pub struct Listed {
    pub taken: usize,
    pub written: usize,
    pub field: Field,
}

// Takes the input as far as there is room for answers: it stops before a newline where less than ROOM is left.
pub fn list(begun: Field, input: &[u8], out: &mut [u8]) -> Listed
    ensures { Lists begun input.now out.old result out.new }
{
    let mut field = begun;
    let mut written = 0;
    for (taken, &byte) in input.iter().enumerate() {
        match field.feed(byte) {
            Some(next) => field = next,
            None => {
                let Some(more) = answer::answer(field, &mut out[written..]) else {
                    return Listed {
                        taken,
                        written,
                        field,
                    };
                };
                written += more;
                field = Field::Empty;
            }
        }
    }
    Listed {
        taken: input.len(),
        written,
        field,
    }
}

// At the end of the input: a last line without a newline is answered as if it had one. Where that asks for more room,
// the field comes back as it was.
pub fn finish(field: Field, out: &mut [u8]) -> Listed
    ensures { Lists field (lacking ratios field) out.old result out.new }
{
    if field.is_blank() {
        return Listed {
            taken: 0,
            written: 0,
            field,
        };
    }
    list(field, b"\n", out)
}
