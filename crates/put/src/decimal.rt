// A number's decimal digits: counted, then put out from the last on.
ghost use Rattle.std.specs.Prelude.{◌≡◌, length};
ghost use Rattle.numerals.specs.Numerals.{decimal_of};
ghost use Rattle.put.specs.Decimals.{last_digits};

// How many digits n has. The number 0 has one.
pub fn places(n: u32) -> usize
    ensures { result ≡ length (decimal_of n) }
{
    n.max(1).ilog10() as usize + 1
}

// The last digits of n, as many as out has bytes. By hand: write! wants a writer over the slice, which is longer than
// this loop.
pub fn put_digits(out: &mut [u8], n: u32)
    ensures { out.new ≡ last_digits (length out.old) n }
{
    let mut left = n;
    for at in (0..out.len()).rev() {
        out[at] = b'0' + (left % 10) as u8;
        left /= 10;
    }
}
