// How two text keys stand, and the earlier of two.
#![tactic(auto)]

ghost use Rattle.std.specs.Prelude.{[], ◌≡◌};
ghost use Rattle.outcomes.specs.Outcomes.{leaves};
ghost use Rattle.outcomes.specs.Comparing.{compare_text};
ghost use Rattle.refusals.specs.Answers.{answered};
ghost use Rattle.compare.specs.Answers.{standing_as};
ghost use Rattle.compare.specs.Earlier.{Earlier};

use refusals::Refusal;
use std::cmp::Ordering;

// How the keys j and k stand. Keys without fault end in 1, but for the single 0: so the order of their bytes is that of
// the strings extended by zeros.
pub fn compare(j: &[u8], k: &[u8]) -> Result<Ordering, Refusal>
    ensures { leaves (answered 1 standing_as result) [] ≡ compare_text j.now k.now }
{
    scan::judge(j)?;
    scan::judge(k)?;
    Ok(j.cmp(k))
}

// The earlier of two keys: the lent key itself, and the first of equal ones. Where comparing refuses, an empty part of
// the first, which no key is.
pub fn earlier<'a>(j: &'a [u8], k: &'a [u8]) -> &'a [u8]
    ensures { Earlier j.entry k.entry result }
{
    match compare(j, k) {
        Ok(Ordering::Less | Ordering::Equal) => j,
        Ok(Ordering::Greater) => k,
        Err(_) => &j[..0],
    }
}
