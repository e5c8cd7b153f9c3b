// Whether a lent table is lawful. Nothing that is lent is trusted: each call judges its table first.
// Ours: the Rust crate trusts its table. A row of items that rises, as a list in order makes it, is judged without a search.
ghost use Rattle.std.specs.Prelude.{◌≡◌, ◌*◌, ◌^◌, ◌≤◌, ◌<◌, length, get_or};
ghost use Rattle.tables.specs.Slots.{empty, items};
ghost use Rattle.tables.specs.Shapes.{Decides, EmptyFrom, RunUp, Placed, AllPlaced, Lawful};

use super::EMPTY;
use super::item::Item;
use super::region::Region;
use super::shape::Shape;
use super::slots::below;

// Items that stand in a row before the slot `end`: how many, and a number that none is above.
#[derive(Clone, Copy)]
pub struct Row {
    pub end: usize,
    pub len: usize,
    pub top: u32,
}

impl Region<'_> {
    // How many slots hold an item.
    #[tactic(auto, using(crate::proofs::Searching::countings))]
    fn count(self) -> usize
        ensures { (result ≡ items self.entry.slots.now (2 ^ self.entry.shape.lg)) × (result ≤ 2 ^ self.entry.shape.lg) }
    {
        let slots = self.slots;
        let mut count = 0;
        // Loops here and below: as chains of `filter` and `all` they proved, and inserts into 512 items took 1.8 times as long.
        for i in 0..self.shape.size() {
            if slots[i] != EMPTY {
                count += 1;
            }
        }
        count
    }

    // Whether every slot beyond the table is empty.
    fn is_empty_beyond(self) -> bool
        ensures { Decides (EmptyFrom self.entry.slots.now (2 ^ self.entry.shape.lg) (length self.entry.slots.now)) result }
    {
        let slots = self.slots;
        for i in self.shape.size()..slots.len() {
            if slots[i] != EMPTY {
                return false;
            }
        }
        true
    }

    // The items at the end of the table, in a row up to its last slot: the row goes on at slot 0.
    fn tail_row(self) -> Row
        ensures { (result.end ≡ 0) × (result.len ≤ 2 ^ self.entry.shape.lg) × RunUp self.entry.slots.now (2 ^ self.entry.shape.lg) 0 result.len result.top }
    {
        let slots = self.slots;
        let mut len = 0;
        let mut top = 0;
        // by index: what holds is said of the slots from i on, and a reversed walk over the slots has no index to say it by
        for i in (0..self.shape.size()).rev() {
            let x = slots[i];
            if x == EMPTY {
                return Row { end: 0, len, top };
            }
            len += 1;
            top = x.max(top);
        }
        Row { end: 0, len, top }
    }

    // Whether the item at the end of a row is below 2^valid and found there. Where it is above the items of the row, and its home is among those, its search passes them all: none is made.
    fn is_placed(self, row: Row) -> bool
        requires { (row.end < 2 ^ self.shape.lg) × RunUp self.slots.now (2 ^ self.shape.lg) row.end row.len row.top × (get_or self.slots.now row.end 0 ≡ empty → ⊥) }
        ensures { Decides (Placed self.entry.slots.now self.entry.shape.lg self.entry.shape.valid row.end) result }
    {
        let slots = self.slots;
        let shape = self.shape;
        let value = slots[row.end];
        if !below(value, shape.valid) {
            return false;
        }
        let item = Item { value, shape };
        let home = item.home();
        if row.top < value && shape.dist(home, row.end) <= row.len {
            return true;
        }
        item.seek(slots, home) == row.end
    }

    // Whether each item is below 2^valid and found at its own slot.
    fn is_all_placed(self) -> bool
        ensures { Decides (AllPlaced self.entry.slots.now self.entry.shape.lg self.entry.shape.valid (2 ^ self.entry.shape.lg)) result }
    {
        let slots = self.slots;
        let mut row = self.tail_row();
        for p in 0..self.shape.size() {
            let x = slots[p];
            if x == EMPTY {
                row = Row {
                    end: p + 1,
                    len: 0,
                    top: 0,
                };
            } else {
                if !self.is_placed(row) {
                    return false;
                }
                row = Row {
                    end: p + 1,
                    len: row.len + 1,
                    top: x.max(row.top),
                };
            }
        }
        true
    }

    // Whether the slots hold so many items, and no more than three quarters of them do.
    fn has(self, count: u32) -> bool
        ensures { Decides ((items self.entry.slots.now (2 ^ self.entry.shape.lg) ≡ count) × (4 * count ≤ 3 * 2 ^ self.entry.shape.lg)) result }
    {
        let held = self.count();
        if held != count as usize {
            return false;
        }
        4 * held <= 3 * self.shape.size()
    }
}

// Whether the region holds a lawful table of this shape, and of so many items.
pub fn is_lawful(shape: Shape, slots: &[u32], count: u32) -> bool
    ensures { Decides (Lawful slots.now shape.lg shape.valid count) result }
{
    if slots.len() < shape.size() {
        return false;
    }
    let region = Region { slots, shape };
    if !region.has(count) {
        return false;
    }
    if !region.is_empty_beyond() {
        return false;
    }
    region.is_all_placed()
}
