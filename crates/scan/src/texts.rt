// The word in front of a text, read straight from its characters.
ghost use Rattle.std.specs.Prelude.{true, ◌≡◌, min, suc, ◌<◌, ◌≤◌, drop, get_or, length};
ghost use Rattle.bits.specs.Binary.{number_from, first_bits};
ghost use Rattle.families.specs.Families.{ended};
ghost use Rattle.families.specs.Words.{run_of};
ghost use Rattle.scan.specs.Characters.{bits_read};
ghost use Rattle.scan.specs.Taking.{taken_from};

use crate::Quotient;
use refusals::Refusal;

// The characters of a text. Their bits are turned where a turned word is due, and so is what they go on with.
#[derive(Clone, Copy)]
pub struct Characters<'a> {
    pub text: &'a [u8],
    pub turned: bool,
}

impl<'a> Characters<'a> {
    // The word in front; where a turned word is due and only zeros are left, the end.
    pub fn word(self) -> Result<Option<Quotient>, Refusal>
        ensures { let turned = self.entry.turned in result ≡ taken_from turned (bits_read self.entry.text.now turned) }
    {
        let r = self.run();
        if self.turned && zeros_from(self.text, r) {
            return Ok(None);
        }
        if 31 < r {
            return Err(Refusal::OutOfRange);
        }
        Ok(Some(Quotient {
            value: self.number(r),
            characters: 2 * r + 1,
        }))
    }

    // The ones in front, counted until a zero is met or the text ends, or until there are more than 31.
    fn run(self) -> usize
        ensures ones { result ≡ min 32 (run_of (bits_read self.entry.text.now self.entry.turned)) }
        ensures within { result ≤ length self.entry.text.now }
    {
        let mut n = 0;
        loop {
            if 31 < n {
                break n;
            }
            if self.text.len() <= n {
                break n;
            }
            if (self.text[n] == b'1') == self.turned {
                break n;
            }
            n += 1;
        }
    }

    // The digits after a run and the zero that stops it, with a leading one before them.
    fn number(self, run: usize) -> u32
        requires { run < 32 }
        ensures { let turned = self.entry.turned in
            result ≡ number_from 1 (first_bits turned run (drop (suc run) (bits_read self.entry.text.now turned))) }
    {
        let mut v = 1;
        for i in 0..run {
            v = 2 * v + u32::from(self.bit(run + 1 + i));
        }
        v
    }

    // The bit at i. Past the text it is what the bits go on with.
    fn bit(self, i: usize) -> bool
        ensures { result ≡ get_or (bits_read self.entry.text.now self.entry.turned) i self.entry.turned }
    {
        self.text
            .get(i)
            .map_or(self.turned, |c| (*c == b'1') != self.turned)
    }
}

// Whether no 1 stands in k from at on.
fn zeros_from(k: &[u8], at: usize) -> bool
    requires { at ≤ length k.now }
    ensures { result ≡ ended true (drop at (bits_read k.now true)) }
{
    k[at..].iter().all(|c| *c != b'1')
}
