// A list of pairs that passes its judgement, for a sketch of some size.
ghost use Rattle.std.specs.Prelude.{◌≡◌, [], ◌≤◌, ltb, length, IfOk};
ghost use Rattle.laws.specs.Choose.{choose};
ghost use Rattle.refusals.specs.Outcome.{accepted, refused};
ghost use Rattle.refusals.specs.Told.{told_plain};
ghost use Rattle.pair_lists.specs.Lists.{pairs_judged};

use numbers::size::SketchSize;
use pair_lists::judge_pairs;
use refusals::Refusal;

// More pairs than this are refused, written or read.
pub const MOST_PAIRS: u32 = 0x1000_0000;

#[derive(Clone, Copy)]
pub struct PairList<'a> {
    pub pairs: &'a [u32],
    pub size: SketchSize,
    ghost few: { length pairs.now ≤ 268435456 },
    ghost lawful: { pairs_judged size.k pairs.now ≡ accepted [] },
}

// 4, then the first faulty pair.
pub fn lawful_list(size: SketchSize, pairs: &[u32]) -> Result<PairList<'_>, Refusal>
    ensures told { told_plain result ≡ choose (ltb 268435456 (length pairs.now)) (refused 4 0) (pairs_judged size.k pairs.now) }
    ensures same { IfOk result (λ list. (list.pairs.now ≡ pairs.now) × (list.size ≡ size)) }
{
    if (MOST_PAIRS as usize) < pairs.len() {
        return Err(Refusal::TooManyPairs);
    }
    judge_pairs(size.lg, pairs)?;
    Ok(PairList { pairs, size })
}
