// A block put out as text or as a column, a number in decimal digits. Each gives how many characters its key or its
// numeral has, and refuses a buffer that is too short.
#![tactic(auto)]

ghost use Rattle.std.specs.Prelude.{◌≡◌, length};
ghost use Rattle.bits.specs.Strings.{closed};
ghost use Rattle.blocks.specs.Blocks.{bits_of_block};
ghost use Rattle.put.specs.Putting.{text_put, column_put, decimal_put};

use blocks::Block;
use refusals::Refusal;

mod decimal;
mod text;

// The characters of a block's key: zeros behind are dropped, but the first character stays.
fn characters_of(b: Block) -> usize
    ensures { result ≡ length (closed (bits_of_block b)) }
{
    if b.low == 0 {
        64 - (b.high | 0x8000_0000_0000_0000).trailing_zeros() as usize
    } else {
        96 - b.low.trailing_zeros() as usize
    }
}

// As text at the front of out. Only the key's own characters are written.
#[tactic(auto, unfolding(crate::specs::Putting::text_put))]
pub fn put_text(b: Block, out: &mut [u8]) -> Result<usize, Refusal>
    ensures { (result, out.new) ≡ text_put (bits_of_block b) out.old }
{
    if out.len() < 96 {
        return Err(Refusal::WrongSize);
    }
    let n = characters_of(b);
    if n <= 64 {
        text::put_bits(&mut out[..n], b.high);
    } else {
        text::put_bits(&mut out[..64], b.high);
        text::put_bits(&mut out[64..n], (b.low as u64) << 32);
    }
    Ok(n)
}

// As a column at the front of out, 12 bytes.
#[tactic(auto, unfolding(crate::specs::Putting::column_put))]
pub fn put_column(b: Block, out: &mut [u8]) -> Result<usize, Refusal>
    ensures { (result, out.new) ≡ column_put (bits_of_block b) out.old }
{
    if out.len() < 12 {
        return Err(Refusal::WrongSize);
    }
    out[..8].copy_from_slice(&b.high.to_be_bytes());
    out[8..12].copy_from_slice(&b.low.to_be_bytes());
    Ok(characters_of(b))
}

// A number in decimal digits at the front of out.
#[tactic(auto, unfolding(crate::specs::Putting::decimal_put))]
pub fn put_decimal(n: u32, out: &mut [u8]) -> Result<usize, Refusal>
    ensures { (result, out.new) ≡ decimal_put n out.old }
{
    if out.len() < 10 {
        return Err(Refusal::WrongSize);
    }
    let count = decimal::places(n);
    decimal::put_digits(&mut out[..count], n);
    Ok(count)
}
