// Characters in groups of eight, each group in one machine word, its first character in the lowest byte.
ghost use Rattle.std.specs.Prelude.{◌≡◌, true, ◌+◌, ◌≤◌, ◌<◌, length, take, drop};
ghost use Rattle.bits.specs.Binary.{number_of};
ghost use Rattle.bits.specs.Texts.{bits_of_text};
ghost use Rattle.blocks.specs.Bytewise.{low_bytes};
ghost use Rattle.load.specs.Passing.{Plain, Passed};
ghost use Rattle.load.specs.Gathering.{Gathered};
ghost use Rattle.load.specs.Fronts.{Shared};

// The bits of the first characters of a text, and how many these are.
#[derive(Clone, Copy)]
pub struct Front {
    pub bits: u64,
    pub passed: usize,
}

// Whether each character is 0 or 1, which differ in their lowest bit only.
fn is_plain(group: &[u8; 8]) -> bool
    ensures { result ≡ true → Plain group.now }
{
    let w = u64::from_le_bytes(*group);
    w - (w & 0x0101_0101_0101_0101) == 0x3030_3030_3030_3030
}

// The bits of eight such characters, the first one's on top. The first four go sixteenfold onto the last four, so that
// four bytes hold two bits each; the product adds these up in its fourth byte, each doubled once more than the next.
fn bits_in(group: &[u8; 8]) -> u64
    ensures value { Plain group.now → result ≡ number_of (bits_of_text group.now) }
    ensures upper_bound { result < 256 }
{
    let low = u64::from_le_bytes(*group) & 0x0101_0101_0101_0101;
    (((low % 4294967296) * 16 + low / 4294967296) * 0x0804_0201 >> 24) % 256
}

// Whether a text of eight characters or more has only 0 and 1. The last group may overlap the one before, so that no
// character is looked at alone.
pub fn are_plain(k: &[u8]) -> bool
    ensures { result ≡ true → Passed k.now (length k.now) }
{
    let groups = k.as_chunks::<8>().0;
    match k.last_chunk() {
        Some(last) => is_plain(last) && groups.iter().all(is_plain),
        None => false,
    }
}

// The bits of whole groups, up to the first that has another character than 0 and 1.
pub fn gather(k: &[u8]) -> Front
    requires { length k.now ≤ 64 }
    ensures { (result.passed ≤ length k.now) × Gathered k.now result.bits result.passed }
{
    let mut bits: u64 = 0;
    let mut passed = 0;
    for group in k.as_chunks::<8>().0 {
        if !is_plain(group) {
            break;
        }
        bits = (bits << 8) + bits_in(group);
        passed += 8;
    }
    Front { bits, passed }
}

// How many characters at the front are found to be the same in both texts, group by group.
pub fn skip_same(j: &[u8], k: &[u8]) -> usize
    ensures shared { Shared j.now k.now result }
    ensures within { (result ≤ length j.now) × (result ≤ length k.now) }
{
    let groups = j.as_chunks::<8>().0.iter().zip(k.as_chunks::<8>().0);
    let same = groups.take_while(|(a, b)| u64::from_le_bytes(**a) == u64::from_le_bytes(**b));
    8 * same.count()
}
