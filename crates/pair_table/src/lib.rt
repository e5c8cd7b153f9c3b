// The pair table: items in the slots of a lent region, with a lent spare of the same length for rebuilds.
// After src/cpc/pair_table.rs of the Rust crate datasketches 0.5.0 (Apache-2.0); changed: a record by value beside lent regions for a struct that holds a `Vec`,
// `rebuild` takes the spare, and each call is total and refuses by number. Crate table_listings has extraction and the walk.
#![tactic(auto)]

ghost use Rattle.std.specs.Prelude.{◌≡◌};
ghost use Rattle.refusals.specs.Told.{told_plain};
ghost use Rattle.tables.specs.Calls.{table_judged, new_of, blank_if, build_of, build_region, build_spare, insert_of, insert_region, delete_of, delete_region, spare_after, clear_of};
ghost use Rattle.pair_table.specs.Told.{told_table, told_change};

mod batch;
mod building;
mod changing;
mod item;
mod judged;
mod judged_list;
mod judging;
mod lawfulness;
mod region;
mod shape;
mod slots;

pub use judged::JudgedTable;
pub use judging::judge_table;
use judging::{judge_call, judge_new};
use refusals::Refusal;
pub use shape::Shape;

// The empty slot.
pub const EMPTY: u32 = 0xFFFF_FFFF;

// What a table is besides its slots.
#[derive(Clone, Copy)]
pub struct PairTable {
    // there are 2^lg slots
    pub lg: u8,
    // items are below 2^valid
    pub valid: u8,
    pub items: u32,
}

// Whether a lent table is lawful: refusals 2, 15, which every call that is lent one tries first.
pub fn judge(table: PairTable, region: &[u32], spare: &[u32]) -> Result<(), Refusal>
    ensures { told_plain result ≡ table_judged region.now spare.now table.lg table.valid table.items }
{
    judge_table(table, region, spare)?;
    Ok(())
}

// An empty table of 2^lg slots.
pub fn new(lg: u8, valid: u8, region: &mut [u32], spare: &mut [u32]) -> Result<PairTable, Refusal>
    ensures { (told_table result ≡ new_of region.old spare.old lg valid)
        × (region.new ≡ blank_if (new_of region.old spare.old lg valid) region.old)
        × (spare.new ≡ blank_if (new_of region.old spare.old lg valid) spare.old) }
{
    let shape = judge_new(lg, valid, region, spare)?;
    Ok(shape.empty_table(region, spare))
}

// A table of the items of a list, in the fewest slots that they may fill.
pub fn build(
    valid: u8,
    list: &[u32],
    region: &mut [u32],
    spare: &mut [u32],
) -> Result<PairTable, Refusal>
    ensures { (told_table result ≡ build_of region.old spare.old valid list.now)
        × (region.new ≡ build_region region.old spare.old valid list.now)
        × (spare.new ≡ build_spare region.old spare.old valid list.now) }
{
    let judged = building::judge_lent(valid, list, region, spare)?;
    building::build_judged(judged, region, spare)
}

// Stores an item, and answers with the new record; with none where the item is there already.
pub fn insert(
    table: PairTable,
    region: &mut [u32],
    spare: &mut [u32],
    item: u32,
) -> Result<Option<PairTable>, Refusal>
    ensures { (told_change result ≡ insert_of region.old spare.old table.lg table.valid table.items item)
        × (region.new ≡ insert_region region.old spare.old table.lg table.valid table.items item)
        × (spare.new ≡ spare_after (insert_of region.old spare.old table.lg table.valid table.items item) spare.old) }
{
    judge_call(table, region, spare, item)?.insert(region, spare, table.items)
}

// Takes an item out, and answers with the new record; with none where the item is not there.
pub fn delete(
    table: PairTable,
    region: &mut [u32],
    spare: &mut [u32],
    item: u32,
) -> Result<Option<PairTable>, Refusal>
    ensures { (told_change result ≡ delete_of region.old spare.old table.lg table.valid table.items item)
        × (region.new ≡ delete_region region.old spare.old table.lg table.valid table.items item)
        × (spare.new ≡ spare_after (delete_of region.old spare.old table.lg table.valid table.items item) spare.old) }
{
    judge_call(table, region, spare, item)?.delete(region, spare, table.items)
}

// Empties a table, and keeps its size.
pub fn clear(table: PairTable, region: &mut [u32], spare: &mut [u32]) -> Result<PairTable, Refusal>
    ensures { (told_table result ≡ clear_of region.old spare.old table.lg table.valid table.items)
        × (region.new ≡ blank_if (clear_of region.old spare.old table.lg table.valid table.items) region.old)
        × (spare.new ≡ blank_if (clear_of region.old spare.old table.lg table.valid table.items) spare.old) }
{
    let shape = judge_table(table, region, spare)?.shape;
    Ok(shape.empty_table(region, spare))
}
