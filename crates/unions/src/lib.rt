// Matrices and unions: count, split, expansion, new union, merge.
// After src/cpc/union.rs, src/cpc/sketch.rs (build_bit_matrix) and src/cpc/mod.rs (count_bits_set_in_matrix) of the Rust crate datasketches 0.5.0 (Apache-2.0); changed: one lent matrix and a
// small record for `UnionState`, lent slices for `Vec`, and each call is total and refuses by number.
#![tactic(auto)]

ghost use Rattle.std.specs.Prelude.{◌≡◌};
ghost use Rattle.refusals.specs.Told.{told_plain, told_number};
ghost use Rattle.matrices.specs.Calls.{count_of, split_of, split_window, split_pairs, expand_of, expanded_matrix, new_union_of, new_matrix, merge_of, merged_matrix};
ghost use Rattle.unions.specs.Told.{told_split, told_union};

mod block;
mod counting;
mod cut;
mod filling;
mod judged;
mod judging;
mod matrix;
mod merging;
mod offset;
mod parts;
mod planning;
mod rows;
mod shape;
mod splitting;
mod words;

use self::matrix::Matrix;
use self::rows::Rows;
use numbers::Flavor;
use numbers::size::SketchSize;
use refusals::Refusal;

// What a split says of a matrix.
#[derive(Clone, Copy)]
pub struct Summary {
    pub coupons: u32,
    pub flavor: Flavor,
    pub offset: u8,
    // the first interesting column, 64 if there is none: no Option, since `split_of` promises the 64, and C gets it
    pub column: u8,
    // how many pairs are listed
    pub pairs: u32,
}

// A union besides its matrix.
#[derive(Clone, Copy)]
pub struct CpcUnion {
    // the configured lg_k: the matrix has 2^lg words
    pub lg: u8,
    // the present lg_k: rows from 2^present on are zero
    pub present: u8,
    pub seed: u64,
}

// A read sketch besides its window and its pairs.
#[derive(Clone, Copy)]
pub struct Source {
    pub lg: u8,
    pub seed: u64,
    pub coupons: u32,
}

// How many pairs a matrix holds.
#[tactic(auto, using(laws::proofs::Choices::choices), unfolding(matrices::specs::Calls::count_of))]
pub fn count(lg: u8, matrix: &[u64]) -> Result<u32, Refusal>
    ensures { told_number result ≡ count_of lg matrix.now }
{
    let size = SketchSize::of(lg)?;
    let read = Matrix::of(size, matrix)?;
    if read.has_reserved() {
        return Err(Refusal::Reserved { place: 67108863 });
    }
    Ok(read.coupons() as u32)
}

// A matrix as a sketch: window and list of surprises.
#[tactic(auto, using(laws::proofs::Choices::choices), unfolding(matrices::specs::Calls::split_of))]
pub fn split(
    lg: u8,
    matrix: &[u64],
    window: &mut [u8],
    pairs: &mut [u32],
) -> Result<Summary, Refusal>
    ensures { (told_split result ≡ split_of lg matrix.now window.old pairs.old)
        × (window.new ≡ split_window lg matrix.now window.old pairs.old)
        × (pairs.new ≡ split_pairs lg matrix.now window.old pairs.old) }
{
    let size = SketchSize::of(lg)?;
    let read = Matrix::of(size, matrix)?;
    if (window.len() as u64) != size.k {
        return Err(Refusal::WrongLength);
    }
    if read.has_reserved() {
        return Err(Refusal::Reserved { place: 67108863 });
    }
    splitting::split_rows(read, window, pairs)
}

// The pairs that a window and a list stand for, as a matrix.
pub fn expand(
    lg: u8,
    coupons: u32,
    window: &[u8],
    pairs: &[u32],
    matrix: &mut [u64],
) -> Result<(), Refusal>
    ensures { (told_plain result ≡ expand_of lg coupons window.now pairs.now matrix.old)
        × (matrix.new ≡ expanded_matrix lg coupons window.now pairs.now matrix.old) }
{
    let source = planning::judge_expansion(lg, coupons, matrix.len(), window, pairs)?;
    filling::fill(matrix, &source);
    Ok(())
}

// A union of nothing: the matrix is zeroed.
#[tactic(auto, using(laws::proofs::Choices::choices), unfolding(matrices::specs::Calls::new_union_of))]
pub fn new_union(lg: u8, seed: u64, matrix: &mut [u64]) -> Result<CpcUnion, Refusal>
    ensures { (told_union result ≡ new_union_of lg seed matrix.old) × (matrix.new ≡ new_matrix lg seed matrix.old) }
{
    let size = SketchSize::of(lg)?;
    if (matrix.len() as u64) != size.k {
        return Err(Refusal::WrongLength);
    }
    matrix.fill(0);
    Ok(CpcUnion {
        lg,
        present: lg,
        seed,
    })
}

// A source joins a union: its pairs, their rows taken mod the k from then on.
pub fn merge(
    state: CpcUnion,
    matrix: &mut [u64],
    source: Source,
    window: &[u8],
    pairs: &[u32],
) -> Result<CpcUnion, Refusal>
    ensures { (told_union result ≡ merge_of state.lg state.present state.seed matrix.old source.lg source.seed source.coupons window.now pairs.now)
        × (matrix.new ≡ merged_matrix state.lg state.present state.seed matrix.old source.lg source.seed source.coupons window.now pairs.now) }
{
    let plan = planning::judge_merge(state, matrix, source, window, pairs)?;
    let empty = source.coupons == 0;
    if empty {
        return Ok(state);
    }
    let mut rows = Rows {
        words: matrix,
        size: plan.present,
    };
    rows.take_in(&plan.source);
    Ok(CpcUnion {
        lg: state.lg,
        present: rows.size.lg,
        seed: state.seed,
    })
}
