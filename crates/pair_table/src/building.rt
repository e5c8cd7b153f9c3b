// A table built from a list of items.
// After `from_slots` in src/cpc/pair_table.rs of the Rust crate datasketches 0.5.0 (Apache-2.0); changed: see lib.rt, and a list is stored without a search while it rises; after that an
// item above all before it is searched for from where the last search ended. So a rising list is stored in one pass.
ghost use Rattle.std.specs.Prelude.{◌≡◌, ◌+◌, ◌≤◌, ◌<◌, ◌^◌, length, IfOk};
ghost use Rattle.refusals.specs.Told.{told_plain};
ghost use Rattle.tables.specs.Slots.{spot, items};
ghost use Rattle.tables.specs.Changes.{blank, build_lg};
ghost use Rattle.tables.specs.Shapes.{RunUp, Lawful};
ghost use Rattle.tables.specs.Calls.{items_judged};
ghost use Rattle.pair_table.specs.Steps.{NoneAbove, lent_judged, BuiltTo, BuiltUp, StoredBy, BuiltBy};

use super::PairTable;
use super::batch::Batch;
use super::changing::{fit, wipe};
use super::item::Item;
use super::judged_list::JudgedList;
use super::judging::{judge_growth, judge_item};
use super::lawfulness::Row;
use refusals::Refusal;

// A number that no item is above. There is no way out of the loop, so that it runs many at a time.
fn highest(list: &[u32]) -> u32
    ensures { NoneAbove list.now (length list.now) result }
{
    let mut top = 0;
    for x in list {
        top = top.max(*x);
    }
    top
}

// The first bad item, by one after the other.
#[tactic(auto, using(crate::proofs::StoringLists::judgings))]
fn first_bad(valid: u8, list: &[u32]) -> Result<(), Refusal>
    ensures { told_plain result ≡ items_judged valid 0 list.now }
{
    for (i, x) in list.iter().enumerate() {
        judge_item(valid, *x, i as u64)?;
    }
    Ok(())
}

// Refusals 10, 12: the first bad item, searched for only where the highest is bad.
fn judge_items(valid: u8, list: &[u32]) -> Result<(), Refusal>
    ensures { told_plain result ≡ items_judged valid 0 list.now }
{
    if judge_item(valid, highest(list), 0).is_err() {
        return first_bad(valid, list);
    }
    Ok(())
}

// Refusals 2, 15, 4, 10, 12.
#[tactic(auto, using(laws::proofs::Choices::choices), unfolding(crate::specs::Steps::lent_judged))]
pub fn judge_lent<'a>(
    valid: u8,
    list: &'a [u32],
    region: &[u32],
    spare: &[u32],
) -> Result<JudgedList<'a>, Refusal>
    ensures says { told_plain result ≡ lent_judged region.now spare.now valid list.now }
    ensures same { IfOk result (λ judged. (judged.list.now ≡ list.now) × (judged.valid ≡ valid)) }
{
    if region.len() != spare.len() {
        return Err(Refusal::WrongLength);
    }
    if valid < 3 || 32 < valid {
        return Err(Refusal::NotLawful);
    }
    if 0x1000_0000 < list.len() {
        return Err(Refusal::TooManyPairs);
    }
    judge_items(valid, list)?;
    Ok(JudgedList { list, valid })
}

// The least lg from 2 up at which so many items fit; 27 where it would pass 26, and no Option: `build_lg`, of which `build_of` speaks, says 27 there.
#[tactic(auto, using(crate::proofs::StoringLists::sizings))]
fn lg_for(items: u32) -> u8
    ensures { (result ≡ build_lg items) × (2 ≤ result) × (result ≤ 27) }
{
    for lg in 2..27 {
        if fit(items, lg) {
            return lg;
        }
    }
    27
}

impl Item {
    // Where the search for it ends. It begins at the end of a row of items, where the item is above them and its home is among them: its search would pass them all.
    #[tactic(auto, unfolding(tables::specs::Slots::spot))]
    fn locate(self, slots: &[u32], row: Row) -> usize
        requires lawful { Lawful slots.now self.shape.lg self.shape.valid (items slots.now (2 ^ self.shape.lg)) }
        requires row { (row.end < 2 ^ self.shape.lg) × RunUp slots.now (2 ^ self.shape.lg) row.end row.len row.top }
        ensures { (result ≡ spot slots.now self.shape.lg self.shape.valid self.value) × (result < 2 ^ self.shape.lg) }
    {
        let home = self.home();
        if self.shape.dist(home, row.end) <= row.len && row.top < self.value {
            return self.seek(slots, row.end);
        }
        self.seek(slots, home)
    }
}

// How many items of a list are stored, and a number that all of them are below.
#[derive(Clone, Copy)]
struct Risen {
    count: usize,
    least: u32,
}

impl Batch<'_> {
    // Stores the items in an empty table while they rise and no search wraps. No slot is read: from p on all are empty, and from the home of an item above
    // all before it up to p none is, so that its search ends at p or at its home.
    fn build_rising(self, slots: &mut [u32]) -> Risen
        requires { Lawful slots.old self.shape.lg self.shape.valid 0 }
        ensures { BuiltTo self.entry.list.now slots.old slots.new self.entry.shape.lg self.entry.shape.valid result.least result.count }
    {
        let shape = self.shape;
        let n = shape.size();
        let mut p = 0;
        let mut least = 0;
        for (i, x) in self.list.iter().enumerate() {
            let x = *x;
            let item = Item { value: x, shape };
            let q = item.home().max(p);
            if x < least || n <= q {
                return Risen { count: i, least };
            }
            slots[q] = x;
            p = q + 1;
            least = x + 1;
        }
        Risen {
            count: self.list.len(),
            least,
        }
    }

    // Stores the items from index `count` on, after those before it, up to the first that is there already: its place, if there is one. None before is above `most`.
    fn build_rest(self, slots: &mut [u32], count: usize, most: u32) -> Option<usize>
        requires { BuiltTo self.list.now (blank slots.old) slots.old self.shape.lg self.shape.valid (most + 1) count }
        ensures { BuiltUp self.entry.list.now (blank slots.old) slots.new self.entry.shape.lg self.entry.shape.valid result }
    {
        let list = self.list;
        let shape = self.shape;
        let mut row = Row {
            end: 0,
            len: 0,
            top: most,
        };
        // by index: the answer is the item's place in the whole list, which a walk over the rest alone would have to add up again
        for i in count..list.len() {
            let x = list[i];
            let item = Item { value: x, shape };
            let q = item.locate(slots, row);
            if slots[q] == x {
                return Some(i);
            }
            slots[q] = x;
            if row.top < x {
                row = Row {
                    end: shape.step(q),
                    len: shape.dist(item.home(), q) + 1,
                    top: x,
                };
            }
        }
        None
    }

    // Stores the items in an empty table, up to the first that is there already: its place, if there is one.
    fn build_into(self, slots: &mut [u32]) -> Option<usize>
        requires { Lawful slots.old self.shape.lg self.shape.valid 0 }
        ensures { BuiltUp self.entry.list.now slots.old slots.new self.entry.shape.lg self.entry.shape.valid result }
    {
        let risen = self.build_rising(slots);
        self.build_rest(slots, risen.count, risen.least.saturating_sub(1))
    }

    // All is judged but whether an item stands twice: refusal 11, or the table.
    fn store(self, region: &mut [u32], spare: &mut [u32]) -> Result<PairTable, Refusal>
        requires { (self.shape.lg ≡ build_lg (length self.list.now)) × (2 ^ self.shape.lg ≤ length region.old) }
        ensures { StoredBy region.old spare.old self.entry.shape.valid self.entry.list.now region.new spare.new result }
    {
        wipe(region);
        wipe(spare);
        if let Some(place) = self.build_into(region) {
            wipe(region);
            return Err(Refusal::NotAbove {
                place: place as u64,
            });
        }
        Ok(self.shape.table(self.list.len() as u32))
    }
}

// What was lent is judged: refusals 13, 5, 11, or the table. Region and spare stay two parameters, as in changing.rt: a struct that holds a `&mut` is no plainer.
pub fn build_judged(
    judged: JudgedList,
    region: &mut [u32],
    spare: &mut [u32],
) -> Result<PairTable, Refusal>
    ensures { BuiltBy region.old spare.old judged.entry.valid judged.entry.list.now region.new spare.new result }
{
    let list = judged.list;
    let lg = lg_for(list.len() as u32);
    let shape = judge_growth(region, lg, judged.valid)?;
    Batch { list, shape }.store(region, spare)
}
