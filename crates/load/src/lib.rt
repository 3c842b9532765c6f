// Text or a column taken into a block, a text's first strange character, and the front that two texts share.
#![tactic(auto)]

ghost use Rattle.std.specs.Prelude.{◌≡◌, ◌≤◌, length};
ghost use Rattle.bits.specs.Texts.{bits_of_text};
ghost use Rattle.blocks.specs.Blocks.{block_of};
ghost use Rattle.load.specs.Fronts.{shared_length};
ghost use Rattle.load.specs.Gathering.{top_word};
ghost use Rattle.load.specs.Loading.{loaded};
ghost use Rattle.outcomes.specs.Refusals.{first_strange};

use blocks::Block;
use refusals::Refusal;

mod eights;

// A column's 96 bits.
pub fn load_column(c: &[u8]) -> Result<Block, Refusal>
    ensures { result ≡ loaded c.now }
{
    if c.len() != 12 {
        return Err(Refusal::WrongColumn);
    }
    Ok(Block {
        high: u64::from_be_bytes(c[..8].try_into().unwrap()),
        low: u32::from_be_bytes(c[8..].try_into().unwrap()),
    })
}

// Up to 64 characters as bits from the top of a machine word down: groups first, then one at a time what they leave. An
// empty text stays where it is, since a shift is by less than 64.
fn gathered(k: &[u8]) -> u64
    requires { length k.now ≤ 64 }
    ensures { result ≡ top_word k.now }
{
    let front = eights::gather(k);
    let mut bits = front.bits;
    for &c in &k[front.passed..] {
        bits = 2 * bits + (c == b'1') as u64;
    }
    bits << ((64 - k.len()) % 64)
}

// The index of the first character that is neither 0 nor 1, or the length.
pub fn first_strange(k: &[u8]) -> usize
    ensures { result ≡ first_strange k.now }
{
    if eights::are_plain(k) {
        return k.len();
    }
    k.iter()
        .position(|&c| c != b'0' && c != b'1')
        .unwrap_or(k.len())
}

// The first 96 characters of a text, extended by zeros. A character other than 1 counts as 0.
pub fn load_text(k: &[u8]) -> Block
    ensures { result ≡ block_of (bits_of_text k.now) }
{
    if k.len() <= 64 {
        return Block {
            high: gathered(k),
            low: 0,
        };
    }
    let rest = gathered(&k[64..k.len().min(96)]);
    Block {
        high: gathered(&k[..64]),
        low: (rest >> 32) as u32,
    }
}

// How many characters at the front are the same in both texts: groups first, then one at a time. Comparing goes by the
// library's order; this stays, since its contract, its theorems and the edit `group_counted_as_nine` may not go.
pub fn same_front(j: &[u8], k: &[u8]) -> usize
    ensures { result ≡ shared_length j.now k.now }
{
    let same = eights::skip_same(j, k);
    let rest = j[same..].iter().zip(&k[same..]);
    same + rest.take_while(|(a, b)| a == b).count()
}
