// A table's items, listed: by extraction, and in the order of the merge walk.
// After `unwrapping_get_items` in src/cpc/pair_table.rs and the walk in src/cpc/union.rs of the Rust crate datasketches 0.5.0 (Apache-2.0); changed: the items go to a lent output, and each call
// is total and refuses by number.
#![tactic(auto)]

ghost use Rattle.std.specs.Prelude.{◌≡◌, ◌≤◌, [], ◌∷◌, length, IfOk};
ghost use Rattle.refusals.specs.Outcome.{accepted, and_then};
ghost use Rattle.refusals.specs.Told.{told_number, told_plain};
ghost use Rattle.tables.specs.Calls.{list_of_items, extract_into, walk_into};

mod extraction;
mod walking;

use pair_table::{JudgedTable, PairTable};
use refusals::Refusal;

// Refusals 2, 15, 5.
#[tactic(auto, using(laws::proofs::Choices::choices), unfolding(tables::specs::Calls::list_of_items))]
fn judge_room<'a>(
    table: PairTable,
    region: &'a [u32],
    spare: &[u32],
    out: &[u32],
) -> Result<JudgedTable<'a>, Refusal>
    ensures says { list_of_items region.now spare.now table.lg table.valid table.items out.now ≡ and_then (told_plain result) (accepted (table.items ∷ [])) }
    ensures same { IfOk result (λ judged. (judged.slots.now ≡ region.now) × (judged.shape.lg ≡ table.lg) × (judged.shape.valid ≡ table.valid) × (judged.items ≡ table.items)) }
    ensures room { IfOk result (λ judged. judged.items ≤ length out.now) }
{
    let judged = pair_table::judge_table(table, region, spare)?;
    if out.len() < table.items as usize {
        return Err(Refusal::NoRoom);
    }
    Ok(judged)
}

// The items in slot order, but before the first empty slot those with the highest valid bit set go to the end, backwards: they wrapped around.
pub fn extract(
    table: PairTable,
    region: &[u32],
    spare: &[u32],
    out: &mut [u32],
) -> Result<u32, Refusal>
    ensures { (told_number result ≡ list_of_items region.now spare.now table.lg table.valid table.items out.old)
        × (out.new ≡ extract_into region.now spare.now table.lg table.valid table.items out.old) }
{
    let judged = judge_room(table, region, spare, out)?;
    extraction::extract_into(judged, out);
    Ok(table.items)
}

// The items in the order of a walk over the slots by a stride near the golden ratio.
// From `extract` it differs in the writer alone: to take the writer as a closure needs a contract that is longer than these three lines.
pub fn walk(
    table: PairTable,
    region: &[u32],
    spare: &[u32],
    out: &mut [u32],
) -> Result<u32, Refusal>
    ensures { (told_number result ≡ list_of_items region.now spare.now table.lg table.valid table.items out.old)
        × (out.new ≡ walk_into region.now spare.now table.lg table.valid table.items out.old) }
{
    let judged = judge_room(table, region, spare, out)?;
    walking::walk_into(judged, out);
    Ok(table.items)
}
