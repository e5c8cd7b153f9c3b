// What an expansion and a merge judge before they write: 1, 17, 2, 15, the source, 16.
// After src/cpc/union.rs (update) of the Rust crate datasketches 0.5.0 (Apache-2.0); changed: the order is document 01's, and seeds come last.
ghost use Rattle.std.specs.Prelude.{◌≡◌, not, [], length, IfOk};
ghost use Rattle.laws.specs.Choose.{choose};
ghost use Rattle.refusals.specs.Outcome.{accepted, refused, and_then};
ghost use Rattle.matrices.specs.Calls.{lawful_union, merge_judged};
ghost use Rattle.matrices.specs.Parts.{windowed};
ghost use Rattle.matrices.specs.Source.{source_judged};
ghost use Rattle.unions.specs.Steps.{ShapeOf, PartsOf, JudgedOf, PlanOf, shape_judged, lent_judged, zeros_from};
ghost use Rattle.refusals.specs.Told.{told_plain};

use super::judged::Judged;
use super::matrix::Matrix;
use super::offset::Offset;
use super::parts::Parts;
use super::shape::Shape;
use super::{CpcUnion, Source};
use numbers::Flavor;
use numbers::size::SketchSize;
use refusals::Refusal;

impl Shape {
    // Refusals 1, and 17 where the coupons exceed 64k.
    #[tactic(auto, using(laws::proofs::Choices::choices), unfolding(crate::specs::Steps::shape_judged))]
    pub fn of(lg: u8, coupons: u32) -> Result<Shape, Refusal>
        ensures told { told_plain result ≡ shape_judged lg coupons }
        ensures given { IfOk result (ShapeOf lg coupons) }
    {
        let size = SketchSize::of(lg)?;
        let column = u64::from(size.offset(coupons)?);
        Ok(Shape {
            size,
            coupons,
            flavor: size.flavor(coupons),
            offset: Offset { column },
        })
    }

    // Empty and Sparse have no window.
    pub fn is_wide(self) -> bool
        ensures { result ≡ windowed self.flavor }
    {
        match self.flavor {
            Flavor::Empty | Flavor::Sparse => false,
            Flavor::Hybrid | Flavor::Pinned | Flavor::Sliding => true,
        }
    }

    // The bytes of a source's window.
    fn window_bytes(self) -> u64
        ensures { result ≡ choose (windowed self.flavor) self.size.k 0 }
    {
        if self.is_wide() {
            return self.size.k;
        }
        0
    }
}

// Refusals 1, 17 where the coupons exceed 64k, 2: a matrix of so many words, a window of so many bytes at the source's lg.
#[tactic(auto, using(laws::proofs::Choices::choices), unfolding(crate::specs::Steps::lent_judged, crate::specs::Steps::shape_judged))]
fn judge_lent<'a>(
    size: SketchSize,
    words: usize,
    lg: u8,
    coupons: u32,
    window: &'a [u8],
    pairs: &'a [u32],
) -> Result<Parts<'a>, Refusal>
    ensures told { told_plain result ≡ lent_judged size.lg words lg coupons (length window.now) }
    ensures given { IfOk result (PartsOf lg coupons window.now pairs.now) }
{
    let shape = Shape::of(lg, coupons)?;
    if (words as u64) != size.k || (window.len() as u64) != shape.window_bytes() {
        return Err(Refusal::WrongLength);
    }
    Ok(Parts {
        shape,
        window,
        pairs,
    })
}

// Expansion: 1, 17 if over 64k, 2, then the source.
#[tactic(auto, using(laws::proofs::Choices::choices), unfolding(crate::specs::Steps::lent_judged, crate::specs::Steps::shape_judged))]
pub fn judge_expansion<'a>(
    lg: u8,
    coupons: u32,
    words: usize,
    window: &'a [u8],
    pairs: &'a [u32],
) -> Result<Judged<'a>, Refusal>
    ensures told { told_plain result ≡ and_then (lent_judged lg words lg coupons (length window.now)) (source_judged lg coupons window.now pairs.now) }
    ensures given { IfOk result (JudgedOf lg coupons window.now pairs.now) }
{
    let size = SketchSize::of(lg)?;
    judge_lent(size, words, lg, coupons, window, pairs)?.judge()
}

// The rows from k on are zero.
fn zero_from(matrix: &[u64], size: SketchSize) -> bool
    ensures { result ≡ zeros_from size.k matrix.now }
{
    for row in size.k as usize..matrix.len() {
        if matrix[row] != 0 {
            return false;
        }
    }
    true
}

// Refusal 15, or the present size of a lawful union.
#[tactic(auto, using(laws::proofs::Choices::choices), unfolding(matrices::specs::Calls::lawful_union))]
fn judge_union(matrix: Matrix, present: u8) -> Result<SketchSize, Refusal>
    ensures told { told_plain result ≡ choose (not (lawful_union matrix.entry.size.lg present matrix.entry.words.now)) (refused 15 0) (accepted []) }
    ensures given { IfOk result (λ s. s.lg ≡ present) }
{
    let Ok(now) = SketchSize::of(present) else {
        return Err(Refusal::NotLawful);
    };
    if matrix.size.lg < present {
        return Err(Refusal::NotLawful);
    }
    if !zero_from(matrix.words, now) {
        return Err(Refusal::NotLawful);
    }
    if matrix.has_reserved() {
        return Err(Refusal::NotLawful);
    }
    Ok(now)
}

// What a merge goes by, once all is judged: the union's present size, and the source.
#[derive(Clone, Copy)]
pub struct Plan<'a> {
    pub present: SketchSize,
    pub source: Judged<'a>,
}

// Merge: 1, 17 if over 64k, 2, 15, then the source, then 16.
#[tactic(auto, using(laws::proofs::Choices::choices), unfolding(matrices::specs::Calls::merge_judged, crate::specs::Steps::lent_judged))]
pub fn judge_merge<'a>(
    state: CpcUnion,
    matrix: &[u64],
    source: Source,
    window: &'a [u8],
    pairs: &'a [u32],
) -> Result<Plan<'a>, Refusal>
    ensures told { told_plain result ≡ merge_judged state.lg state.present state.seed matrix.now source.lg source.seed source.coupons window.now pairs.now }
    ensures given { IfOk result (PlanOf state.present source.lg source.coupons window.now pairs.now) }
{
    let size = SketchSize::of(state.lg)?;
    let lent = judge_lent(size, matrix.len(), source.lg, source.coupons, window, pairs)?;
    let union = Matrix {
        size,
        words: matrix,
    };
    let present = judge_union(union, state.present)?;
    let judged = lent.judge()?;
    let differ = state.seed != source.seed;
    if differ {
        return Err(Refusal::SeedsDiffer);
    }
    Ok(Plan {
        present,
        source: judged,
    })
}
