// The merge walk.
// After `walk_table_updating_sketch` in src/cpc/union.rs of the Rust crate datasketches 0.5.0 (Apache-2.0); changed: see lib.rt, and the strides are held in a table where the Rust multiplies floats.
ghost use Rattle.std.specs.Prelude.{◌≡◌, ◌++◌, ℕ, ◌+◌, ◌*◌, ◌%◌, ◌^◌, ◌≤◌, ◌<◌, length, drop};
ghost use Rattle.laws.specs.Lists.{list_of};
ghost use Rattle.tables.specs.Listings.{stride_at, walk_order};

use pair_table::{EMPTY, JudgedTable, Shape};

// The stride for each lg 2 to 26: floor(6180339887498949 * 2^lg / 10^16), plus one if even.
const STRIDES: [usize; 25] = [
    3, 5, 9, 19, 39, 79, 159, 317, 633, 1265, 2531, 5063, 10125, 20251, 40503, 81007, 162013,
    324027, 648055, 1296111, 2592223, 5184445, 10368889, 20737779, 41475559,
];

// The table and its rule.
fn strides() -> [usize; 25]
    ensures { result ≡ list_of 25 (λ i. stride_at (i + 2)) }
{
    STRIDES
}

// The stride of a walk over the slots.
#[tactic(auto, using(crate::proofs::Strides::stride_found))]
fn stride(shape: Shape) -> usize
    ensures { (result ≡ stride_at shape.lg) × (result < 2 ^ shape.lg) }
{
    strides()[usize::from(shape.lg) - 2]
}

// The slot g after k, wrapping.
#[tactic(auto, using(crate::proofs::Listed::onwards))]
fn onward(shape: Shape, k: usize, g: usize) -> usize
    requires { (k < 2 ^ shape.lg) × (g < 2 ^ shape.lg) }
    ensures { (result < 2 ^ shape.lg) × ((i : ℕ) → k ≡ i * g % 2 ^ shape.lg → result ≡ (i + 1) * g % 2 ^ shape.lg) }
{
    let n = shape.size();
    let q = k + g;
    if q < n { q } else { q - n }
}

// The items of a table. That the output has room stays a clause, as in extraction.rt: a struct that holds the `&mut` is no plainer.
pub fn walk_into(table: JudgedTable, out: &mut [u32])
    requires { table.items ≤ length out.old }
    ensures { out.new ≡ walk_order table.entry.slots.now table.entry.shape.lg ++ drop table.entry.items out.old }
{
    let shape = table.shape;
    let slots = table.slots;
    let g = stride(shape);
    let mut k = 0;
    let mut next = 0;
    for _met in 0..shape.size() {
        let x = slots[k];
        if x != EMPTY {
            out[next] = x;
            next += 1;
        }
        k = onward(shape, k, g);
    }
}
