// Bits of a machine word put out as characters, top bit first, eight at a time.
ghost use Rattle.std.specs.Prelude.{◌≡◌, ◌+◌, ◌<◌, ◌≤◌, length, take};
ghost use Rattle.bits.specs.Binary.{digits_in};
ghost use Rattle.bits.specs.Texts.{text_of};
ghost use Rattle.put.specs.Piecewise.{part_put};

// The eight characters of a byte's bits. The product puts a copy of the byte at every ninth place, so that the bit
// wanted in each byte of the number stands at the same place there.
fn spread(byte: u64) -> [u8; 8]
    requires { byte < 256 }
    ensures { result ≡ text_of (digits_in 8 byte) }
{
    let characters = (((byte * 0x0040_2010_0804_0201) >> 7) & 0x0001_0101_0101_0101)
        + ((byte % 2) << 56)
        + 0x3030_3030_3030_3030;
    characters.to_le_bytes()
}

// The characters of the eight bits from a place on, at that place.
fn put_eight(out: &mut [u8], word: u64, at: usize)
    requires { (at ≤ 56) × (at + 8 ≤ length out.old) }
    ensures { out.new ≡ part_put (digits_in 64 word) at 8 out.old }
{
    out[at..at + 8].copy_from_slice(&spread((word << at) >> 56));
}

// Fewer than eight, one at a time.
fn put_few(out: &mut [u8], word: u64)
    requires { length out.old < 8 }
    ensures { out.new ≡ text_of (take (length out.old) (digits_in 64 word)) }
{
    for at in 0..out.len() {
        out[at] = b'0' + ((word << at) >> 63) as u8;
    }
}

// The first bits of word, as many as out has bytes. The last eight may overlap those before, which are the same there.
pub fn put_bits(out: &mut [u8], word: u64)
    requires { length out.old ≤ 64 }
    ensures { out.new ≡ text_of (take (length out.old) (digits_in 64 word)) }
{
    let count = out.len();
    if count < 8 {
        put_few(out, word);
        return;
    }
    for group in 0..count / 8 {
        put_eight(out, word, 8 * group);
    }
    if 0 < count % 8 {
        put_eight(out, word, count - 8);
    }
}
