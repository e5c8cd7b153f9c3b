// A list of pairs: is every pair lawful, and above the one before?
// After the asserts on pairs of src/cpc/compression.rs and src/cpc/pair_table.rs of the Rust crate datasketches 0.5.0 (Apache-2.0); changed: each call is
// total and refuses by number.
#![tactic(auto)]

ghost use Rattle.std.specs.Prelude.{◌≡◌, true, [], ◌<◌, length};
ghost use Rattle.refusals.specs.Outcome.{accepted};
ghost use Rattle.refusals.specs.Told.{told_plain};
ghost use Rattle.pair_lists.specs.Lists.{pairs_judged, judge_pairs_of};
ghost use Rattle.pair_lists.specs.Steps.{RisesTo};

use numbers::size::SketchSize;
use refusals::Refusal;

// Is every pair above the one before? There is no way out of the loop, so that it runs many at a time.
fn all_rise(pairs: &[u32]) -> bool
    ensures { result ≡ true → RisesTo pairs.now (length pairs.now) }
{
    let mut rises = true;
    // By index: over `windows(2)` it proves, and lists of 1,000,000 pairs took 1.5 times as long.
    for i in 1..pairs.len() {
        rises &= pairs[i - 1] < pairs[i];
    }
    rises
}

// Is the list free of faults? Where every pair is above the one before, the last decides for all.
fn all_lawful(k: u64, pairs: &[u32]) -> bool
    ensures { result ≡ true → pairs_judged k pairs.now ≡ accepted [] }
{
    let Some(last) = pairs.last() else {
        return true;
    };
    if k <= u64::from(*last) / 64 || *last == u32::MAX {
        return false;
    }
    all_rise(pairs)
}

// The first faulty pair, by one after the other.
#[tactic(auto, using(crate::proofs::Judging::judgings))]
fn first_fault(k: u64, pairs: &[u32]) -> Result<(), Refusal>
    ensures { told_plain result ≡ pairs_judged k pairs.now }
{
    let mut least: u64 = 0;
    for (i, pair) in pairs.iter().enumerate() {
        let place = i as u64;
        let pair = u64::from(*pair);
        if k <= pair / 64 {
            return Err(Refusal::RowNotBelow { place });
        }
        if pair < least {
            return Err(Refusal::NotAbove { place });
        }
        if pair == 4294967295 {
            return Err(Refusal::Reserved { place });
        }
        least = pair + 1;
    }
    Ok(())
}

// The first faulty pair of the list, if there is one: it is searched for only where there is one.
#[tactic(auto, using(laws::proofs::Choices::choices), unfolding(crate::specs::Lists::judge_pairs_of))]
pub fn judge_pairs(lg: u8, pairs: &[u32]) -> Result<(), Refusal>
    ensures { told_plain result ≡ judge_pairs_of lg pairs.now }
{
    let k = SketchSize::of(lg)?.k;
    if all_lawful(k, pairs) {
        return Ok(());
    }
    first_fault(k, pairs)
}
