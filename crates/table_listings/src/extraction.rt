// Extraction.
// After `unwrapping_get_items` in src/cpc/pair_table.rs of the Rust crate datasketches 0.5.0 (Apache-2.0); changed: see lib.rt.
// The output stays a parameter of its own, and its room a clause: a struct that holds a `&mut` tells of it by ghost names and `.exit`, which is no plainer.
ghost use Rattle.std.specs.Prelude.{◌≡◌, ◌++◌, ◌+◌, ◌^◌, ◌≤◌, length, take, drop};
ghost use Rattle.tables.specs.Slots.{items};
ghost use Rattle.tables.specs.Listings.{extraction};
ghost use Rattle.tables.specs.Shapes.{Split, Rest};

use pair_table::{EMPTY, JudgedTable};

// Where the writing stands: the next slot to read, the next place from the front, the first place taken at the end.
#[derive(Clone, Copy)]
struct Cut {
    slot: usize,
    fore: usize,
    aft: usize,
}

// Writes the items before the first empty slot: those with the highest valid bit clear from the front, the others from the last item's place back.
fn take_front(table: JudgedTable, out: &mut [u32]) -> Cut
    requires { table.items ≤ length out.old }
    ensures { Split table.entry.slots.now out.old out.new (2 ^ table.entry.shape.lg) table.entry.shape.valid table.entry.items result.slot result.fore result.aft }
{
    let n = table.shape.size();
    let slots = table.slots;
    let half = 1u32 << (table.shape.valid - 1);
    let mut fore = 0;
    let mut aft = table.items as usize;
    // By index, here and below: over the slots' own iterator it proved, and 1,000 items were extracted at less than half the pace.
    for slot in 0..n {
        let x = slots[slot];
        if x == EMPTY {
            return Cut { slot, fore, aft };
        }
        if half <= x {
            aft -= 1;
            out[aft] = x;
        } else {
            out[fore] = x;
            fore += 1;
        }
    }
    Cut { slot: n, fore, aft }
}

// Writes the items from a slot on, from place `fore` on.
#[tactic(auto, using(crate::proofs::Listed::restings))]
fn take_rest(table: JudgedTable, from: usize, out: &mut [u32], fore: usize) -> usize
    requires { (from ≤ 2 ^ table.shape.lg) × (fore + items table.slots.now (2 ^ table.shape.lg) ≤ length out.old + items table.slots.now from) }
    ensures { Rest table.entry.slots.now out.old out.new (2 ^ table.entry.shape.lg) from fore result }
{
    let slots = table.slots;
    let mut next = fore;
    for i in from..table.shape.size() {
        let x = slots[i];
        if x != EMPTY {
            out[next] = x;
            next += 1;
        }
    }
    next
}

// The items of a table.
pub fn extract_into(table: JudgedTable, out: &mut [u32])
    requires { table.items ≤ length out.old }
    ensures { out.new ≡ extraction (take (2 ^ table.entry.shape.lg) table.entry.slots.now) table.entry.shape.valid ++ drop table.entry.items out.old }
{
    let cut = take_front(table, out);
    take_rest(table, cut.slot, out, cut.fore);
}
