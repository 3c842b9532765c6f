// Judging a text key, and reading one word from a place. Both report more than most callers hand on: where the judge
// stopped, and how many characters a word took.
#![tactic(auto)]

ghost use Rattle.std.specs.Prelude.{not, ◌≡◌};
ghost use Rattle.bits.specs.Texts.{bits_of_text};
ghost use Rattle.blocks.specs.Blocks.{bits_of_block};
ghost use Rattle.scan.specs.Judging.{judgement};
ghost use Rattle.scan.specs.Taking.{is_turned, taken_at};

use blocks::Block;
use refusals::Refusal;
use texts::Characters;

mod texts;
mod words;

// The first fault of a text key, in the order in which they are judged; at is the index of the character at which the
// judge stopped.
#[derive(Clone, Copy, Debug, PartialEq, Eq)]
pub struct Fault {
    pub refusal: Refusal,
    pub at: usize,
}

// A call that hands on no more than why it refuses drops the index.
impl From<Fault> for Refusal {
    ghost from_gives = { λ f e. e ≡ f.refusal };

    fn from(fault: Fault) -> Refusal {
        fault.refusal
    }
}

#[derive(Clone, Copy, Debug, PartialEq, Eq)]
pub enum Kind {
    Word,
    Turned,
}

impl Kind {
    // The kind due behind a word of this one.
    pub fn other(self) -> Kind
        ensures { is_turned result ≡ not (is_turned self) }
    {
        match self {
            Kind::Word => Kind::Turned,
            Kind::Turned => Kind::Word,
        }
    }
}

// A place in a key: the characters used, and the kind of word due there.
#[derive(Clone, Copy, Debug, PartialEq, Eq)]
pub struct Place {
    pub used: usize,
    pub due: Kind,
}

// One word: its quotient and how many characters it took.
#[derive(Clone, Copy, Debug, PartialEq, Eq)]
pub struct Quotient {
    pub value: u32,
    pub characters: usize,
}

// Whether k is a key, or its first fault.
pub fn judge(k: &[u8]) -> Result<(), Fault>
    ensures { result ≡ judgement k.now }
{
    if k.is_empty() {
        return Err(Fault {
            refusal: Refusal::EmptyKey,
            at: 0,
        });
    }
    if 96 < k.len() {
        return Err(Fault {
            refusal: Refusal::LongKey,
            at: 96,
        });
    }
    let at = load::first_strange(k);
    if at < k.len() {
        return Err(Fault {
            refusal: Refusal::StrangeKey,
            at,
        });
    }
    let last = k.len() - 1;
    if k[last] == b'0' && 1 < k.len() {
        return Err(Fault {
            refusal: Refusal::OpenKey,
            at: last,
        });
    }
    Ok(())
}

// The word due at a place of a block's string, extended by zeros; no word at the end, and a refusal where its quotient
// is above 4294967295. A turned word is read as a word of the turned bits; where the window is all zeros, it is long
// or, if only zeros are left, the end.
pub fn take(b: Block, place: Place) -> Result<Option<Quotient>, Refusal>
    ensures { result ≡ taken_at (bits_of_block b) place }
{
    let used = place.used;
    let w = words::window(b, used);
    match place.due {
        Kind::Word => words::word(w),
        Kind::Turned if w != 0 => words::word(!w),
        Kind::Turned if used < 32 && words::window(b, used + 64) != 0 => Err(Refusal::OutOfRange),
        Kind::Turned => Ok(None),
    }
}

// The word due at a place of a text, extended by zeros, read straight from its characters, of which there are none past
// its end.
pub fn take_text(k: &[u8], place: Place) -> Result<Option<Quotient>, Refusal>
    ensures { result ≡ taken_at (bits_of_text k.now) place }
{
    let text = &k[place.used.min(k.len())..];
    match place.due {
        Kind::Word => Characters {
            text,
            turned: false,
        }
        .word(),
        Kind::Turned => Characters { text, turned: true }.word(),
    }
}
