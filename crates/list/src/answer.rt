// The answer to a line, put out at the front of a buffer.
ghost use Rattle.std.specs.Prelude.{◌≡◌, ◌≤◌, length};
ghost use Rattle.bits.specs.Strings.{closed};
ghost use Rattle.bits.specs.Texts.{text_of};
ghost use Rattle.blocks.specs.Blocks.{bits_of_block};
ghost use Rattle.numerals.specs.Numerals.{decimal_of};
ghost use Rattle.outcomes.specs.Listing.{marked, refused_line};
ghost use Rattle.refusals.specs.Numbers.{number_of};
ghost use Rattle.list.specs.Ratios.{answer_of};
ghost use Rattle.list.specs.Puts.{Puts, MayPut};
ghost use Rattle.list.specs.Replies.{entry_line, reply_line};

use crate::ROOM;
use blocks::Block;
use fields::Field;
use fractions::Fraction;
use refusals::Refusal;

// A typed ratio in lowest terms, its key and how many quotients the key has.
#[derive(Clone, Copy)]
pub struct Entry {
    pub ratio: Fraction,
    pub key: Block,
    pub quotients: u32,
}

// The entry of what was typed in a line. The divisor is the one that spelling the key leaves.
fn entry_for(field: Field) -> Result<Entry, Refusal>
    ensures { reply_line result ≡ answer_of field }
{
    let typed = field.settle()?;
    let spelled = spell::spell(typed.numerator, typed.denominator)?;
    let numerator = typed.numerator / spelled.divisor;
    let denominator = typed.denominator / spelled.divisor;
    Ok(Entry {
        ratio: Fraction {
            numerator,
            denominator,
        },
        key: spelled.block,
        quotients: spelled.quotients,
    })
}

// The digits of a number.
#[tactic(auto, using(numerals::proofs::Laws::decimal_size), unfolding(put::specs::Putting::decimal_put))]
fn put_digits(n: u32, out: &mut [u8]) -> usize
    requires { 10 ≤ length out.old }
    ensures puts { Puts (decimal_of n) out.old result out.new }
    ensures upper_bound { result ≤ 10 }
{
    put::put_decimal(n, out).unwrap()
}

// A number, and a mark behind it.
fn put_number(n: u32, mark: u8, out: &mut [u8]) -> usize
    requires { 11 ≤ length out.old }
    ensures puts { Puts (marked n mark) out.old result out.new }
    ensures upper_bound { result ≤ 11 }
{
    let at = put_digits(n, out);
    out[at] = mark;
    at + 1
}

// The text of a key.
#[tactic(auto, using(crate::proofs::Replies::few_characters), unfolding(put::specs::Putting::text_put))]
fn put_key(key: Block, out: &mut [u8]) -> usize
    requires { 96 ≤ length out.old }
    ensures puts { Puts (text_of (closed (bits_of_block key))) out.old result out.new }
    ensures upper_bound { result ≤ 96 }
{
    put::put_text(key, out).unwrap()
}

// The word refused, and the number. The answer to a malformed line is one text, since putting out a number's digits
// takes longer than all else that is done for a short line.
fn refuse(refusal: Refusal, out: &mut [u8; ROOM]) -> usize
    ensures { Puts (refused_line (number_of refusal)) out.old result out.new }
{
    if let Refusal::Malformed = refusal {
        out[..11].copy_from_slice(b"refused 10\n");
        return 11;
    }
    out[..8].copy_from_slice(b"refused ");
    8 + put_number(refusal.number(), b'\n', &mut out[8..])
}

// The ratio, its key and the count. The place is counted, since a put that gave back the rest of the buffer would need
// a clause on what it lends.
fn accept(entry: Entry, out: &mut [u8; ROOM]) -> usize
    ensures { Puts (entry_line entry) out.old result out.new }
{
    let mut at = put_number(entry.ratio.numerator, b'/', out);
    at += put_number(entry.ratio.denominator, b' ', &mut out[at..]);
    at += put_key(entry.key, &mut out[at..]);
    out[at] = b' ';
    at += 1;
    at + put_number(entry.quotients, b'\n', &mut out[at..])
}

// The answer to what was typed in a line, where there is room for any answer.
pub fn answer(field: Field, out: &mut [u8]) -> Option<usize>
    ensures { MayPut 130 (answer_of field) out.old result out.new }
{
    let room = out.first_chunk_mut::<ROOM>()?;
    Some(match entry_for(field) {
        Ok(entry) => accept(entry, room),
        Err(refusal) => refuse(refusal, room),
    })
}
