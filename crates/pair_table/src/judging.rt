// The judgements of the calls, which they make before anything is written.
// Region and spare stay two parameters: the public calls are lent them so, and a pair of them would be taken apart at once, no plainer.
ghost use Rattle.std.specs.Prelude.{◌≡◌, ◌^◌, ◌≤◌, length, IfOk};
ghost use Rattle.refusals.specs.Outcome.{and_then};
ghost use Rattle.refusals.specs.Told.{told_plain};
ghost use Rattle.tables.specs.Calls.{record_of, table_judged, item_judged, new_of, growth_judged};

use super::item::Item;
use super::judged::JudgedTable;
use super::lawfulness::is_lawful;
use super::shape::Shape;
use super::slots::below;
use super::{EMPTY, PairTable};
use refusals::Refusal;

// Refusals 2, 15.
#[tactic(auto, using(laws::proofs::Choices::choices), unfolding(tables::specs::Calls::table_judged))]
pub fn judge_table<'a>(
    table: PairTable,
    region: &'a [u32],
    spare: &[u32],
) -> Result<JudgedTable<'a>, Refusal>
    ensures says { told_plain result ≡ table_judged region.now spare.now table.lg table.valid table.items }
    ensures same { IfOk result (λ judged. (judged.slots.now ≡ region.now) × (judged.shape.lg ≡ table.lg) × (judged.shape.valid ≡ table.valid) × (judged.items ≡ table.items)) }
{
    if region.len() != spare.len() {
        return Err(Refusal::WrongLength);
    }
    let shape = Shape::of(table.lg, table.valid)?;
    if !is_lawful(shape, region, table.items) {
        return Err(Refusal::NotLawful);
    }
    Ok(JudgedTable {
        slots: region,
        shape,
        items: table.items,
    })
}

// Refusals 10, 12.
#[tactic(auto, using(crate::proofs::Passing::passings), unfolding(tables::specs::Calls::item_judged))]
pub fn judge_item(valid: u8, item: u32, place: u64) -> Result<(), Refusal>
    ensures { told_plain result ≡ item_judged valid item place }
{
    if item == EMPTY {
        return Err(Refusal::Reserved { place });
    }
    if !below(item, valid) {
        return Err(Refusal::ItemNotBelow { place });
    }
    Ok(())
}

// Refusals 2, 15, 10, 12.
pub fn judge_call(
    table: PairTable,
    region: &[u32],
    spare: &[u32],
    item: u32,
) -> Result<Item, Refusal>
    ensures says { told_plain result ≡ and_then (table_judged region.now spare.now table.lg table.valid table.items) (item_judged table.valid item 0) }
    ensures same { IfOk result (λ judged. (judged.shape.lg ≡ table.lg) × (judged.shape.valid ≡ table.valid) × (judged.value ≡ item)) }
{
    let shape = judge_table(table, region, spare)?.shape;
    judge_item(table.valid, item, 0)?;
    Ok(Item { value: item, shape })
}

// Refusals 2, 15, 5 of a new table.
#[tactic(auto, using(laws::proofs::Choices::choices), unfolding(tables::specs::Calls::new_of))]
pub fn judge_new(lg: u8, valid: u8, region: &[u32], spare: &[u32]) -> Result<Shape, Refusal>
    ensures says { new_of region.now spare.now lg valid ≡ and_then (told_plain result) (record_of lg valid 0) }
    ensures same { IfOk result (λ shape. (shape.lg ≡ lg) × (shape.valid ≡ valid)) }
{
    if region.len() != spare.len() {
        return Err(Refusal::WrongLength);
    }
    let shape = Shape::of(lg, valid)?;
    if region.len() < shape.size() {
        return Err(Refusal::NoRoom);
    }
    Ok(shape)
}

// Refusals 13, 5 of a table that is to have 2^lg slots.
#[tactic(auto, using(crate::proofs::Passing::passings), unfolding(tables::specs::Calls::growth_judged))]
pub fn judge_growth(region: &[u32], lg: u8, valid: u8) -> Result<Shape, Refusal>
    requires { (2 ≤ lg) × (valid ≤ 32) }
    ensures says { told_plain result ≡ growth_judged region.now lg valid }
    ensures grown { IfOk result (λ shape. (shape.lg ≡ lg) × (shape.valid ≡ valid) × (2 ^ lg ≤ length region.now)) }
{
    if 26 < lg || valid <= lg {
        return Err(Refusal::CannotGrow);
    }
    let shape = Shape::lawful(lg, valid);
    if region.len() < shape.size() {
        return Err(Refusal::NoRoom);
    }
    Ok(shape)
}
