// Cutting a text key to a width.
#![tactic(auto)]

ghost use Rattle.std.specs.Prelude.{◌≡◌, ◌≤◌, length, take};
ghost use Rattle.bits.specs.Texts.{bits_of_text, in_front};
ghost use Rattle.cut.specs.Kept.{IsLastOne};
ghost use Rattle.keys.specs.Keys.{cut_to};
ghost use Rattle.outcomes.specs.Outcomes.{leaves};
ghost use Rattle.outcomes.specs.Cutting.{cut_text};
ghost use Rattle.refusals.specs.Answers.{answered, one_as};

use refusals::Refusal;

// The index of the last 1.
fn last_one(k: &[u8]) -> Option<usize>
    ensures { IsLastOne k.now result }
{
    k.iter().rposition(|c| *c == b'1')
}

// How many characters are kept of the first n: zeros at the end are dropped, but the first character stays.
fn kept(k: &[u8], n: usize) -> usize
    ensures { result ≡ length (cut_to n (bits_of_text k.now)) }
{
    let m = n.min(k.len());
    match last_one(&k[..m]) {
        Some(last) => last + 1,
        None => m.min(1),
    }
}

// The first N characters. The compiler knows how many, so by way of an array it makes a load and a store of them; a
// number that only the call knows would become a call of the C library, and the archive asks for none.
fn copy_group<const N: usize>(k: &[u8], out: &mut [u8])
    requires key { N ≤ length k.now }
    requires room { N ≤ length out.old }
    ensures { out.new ≡ in_front (take N k.now) out.old }
{
    let group: [u8; N] = k[..N].try_into().unwrap();
    out[..N].copy_from_slice(&group);
}

// A few characters, one at a time.
fn copy_few(k: &[u8], n: usize, out: &mut [u8])
    requires key { n ≤ length k.now }
    requires room { n ≤ length out.old }
    ensures { out.new ≡ in_front (take n k.now) out.old }
{
    for at in 0..n {
        out[at] = k[at];
    }
}

// The first n characters of k at the front of out, in groups of eight, or two of four where eight are too many. The
// last group may overlap the one before it.
fn copy(k: &[u8], n: usize, out: &mut [u8])
    requires key { n ≤ length k.now }
    requires room { n ≤ length out.old }
    ensures { out.new ≡ in_front (take n k.now) out.old }
{
    if n < 4 {
        copy_few(k, n, out);
        return;
    }
    if n < 8 {
        copy_group::<4>(k, out);
        copy_group::<4>(&k[n - 4..], &mut out[n - 4..]);
        return;
    }
    for group in 0..(n - 1) / 8 {
        copy_group::<8>(&k[8 * group..], &mut out[8 * group..]);
    }
    copy_group::<8>(&k[n - 8..], &mut out[n - 8..]);
}

// The first n characters of a key at the front of out, without zeros at the end; the single 0 if no 1 remains.
#[tactic(auto, using(crate::proofs::Replies::replies))]
pub fn cut(k: &[u8], n: usize, out: &mut [u8]) -> Result<usize, Refusal>
    ensures { leaves (answered 1 one_as result) out.new ≡ cut_text k.now n out.old }
{
    scan::judge(k)?;
    if n == 0 || 96 < n {
        return Err(Refusal::Outside);
    }
    if out.len() < 96 {
        return Err(Refusal::WrongSize);
    }
    let characters = kept(k, n);
    copy(k, characters, out);
    Ok(characters)
}
