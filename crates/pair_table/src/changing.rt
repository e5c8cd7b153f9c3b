// What changes a table: a store, a delete, a rebuild.
// After src/cpc/pair_table.rs of the Rust crate datasketches 0.5.0 (Apache-2.0); changed: see lib.rt, a rebuild goes through the spare, and a delete moves
// its hole along where the Rust stores each item again: the same slots, with no search.
// Region and spare stay parameters of their own, and what holds of the region a clause: a struct that holds a `&mut` tells of it by ghost names and `.exit`, which is no plainer.
ghost use Rattle.std.specs.Prelude.{◌≡◌, ℕ, ◌+◌, ◌-◌, ◌^◌, ◌≤◌, ◌<◌, leb, length, get_or};
ghost use Rattle.tables.specs.Slots.{spot, next};
ghost use Rattle.tables.specs.Changes.{blank, fill, fits, rebuilt, remove, halved, halved_lg};
ghost use Rattle.tables.specs.Shapes.{EmptyFrom, AllSmall, Lawful, apart, shifted};
ghost use Rattle.pair_table.specs.Steps.{InsertedBy, GrownBy, DeletedBy};

use super::item::Item;
use super::judging::judge_growth;
use super::shape::Shape;
use super::{EMPTY, PairTable};
use refusals::Refusal;

// Empties every slot.
pub fn wipe(slots: &mut [u32])
    ensures { slots.new ≡ blank slots.old }
{
    slots.fill(EMPTY);
}

// Moves the first n slots of the spare into the region, and empties them; beyond, both are empty.
fn move_back(region: &mut [u32], spare: &mut [u32], n: usize)
    requires region_len { (length region.old ≡ length spare.old) × (n ≤ length region.old) }
    requires empty_from { EmptyFrom region.old n (length region.old) × EmptyFrom spare.old n (length spare.old) }
    ensures { (region.new ≡ spare.old) × (spare.new ≡ blank spare.old) }
{
    // One pass by index: a copy of the whole part would have the archive ask the linker for memmove, where it asks for memset alone.
    for i in 0..n {
        region[i] = spare[i];
        spare[i] = EMPTY;
    }
}

// Whether so many items go without growth.
pub fn fit(items: u32, lg: u8) -> bool
    requires { lg ≤ 26 }
    ensures { result ≡ fits items lg }
{
    4 * u64::from(items) <= 3 << lg
}

impl Shape {
    // An empty table.
    pub(crate) fn empty_table(self, region: &mut [u32], spare: &mut [u32]) -> PairTable
        ensures region { region.new ≡ blank region.old }
        ensures spare { spare.new ≡ blank spare.old }
        ensures record { (result.lg ≡ self.lg) × (result.valid ≡ self.valid) × (result.items ≡ 0) }
    {
        wipe(region);
        wipe(spare);
        self.table(0)
    }

    // Stores the items of some slots in the table `to`, in their order. The room stays a clause: a struct with the `&mut` in it would tell of it by ghost names, no plainer.
    #[tactic(auto, using(crate::proofs::Rebuilding::refills))]
    fn refill(self, from: &[u32], to: &mut [u32])
        requires room { 2 ^ self.lg ≤ length to.old }
        requires all_small { AllSmall from.now (length from.now) self.valid }
        ensures { to.new ≡ fill from.now (length from.now) to.old self.lg self.valid }
    {
        for x in from {
            let value = *x;
            if value != EMPTY {
                let item = Item { value, shape: self };
                let q = item.lookup(to);
                to[q] = value;
            }
        }
    }

    // The room stays a clause, as in `refill`; here two shapes share one region, so that no one struct could hold it.
    // The table anew in the slots of another shape, through a spare that is empty before and after. Only the slots of the two are touched: no table reaches further.
    fn rebuild(self, to: Shape, region: &mut [u32], spare: &mut [u32])
        requires lent { (length region.old ≡ length spare.old) × (spare.old ≡ blank spare.old) × EmptyFrom region.old (2 ^ self.lg) (length region.old) × AllSmall region.old (2 ^ self.lg) to.valid }
        requires room { (2 ^ self.lg ≤ length region.old) × (2 ^ to.lg ≤ length region.old) }
        ensures { (region.new ≡ rebuilt region.old self.lg to.lg to.valid) × (spare.new ≡ blank spare.old) }
    {
        let n = self.size();
        to.refill(&region[..n], spare);
        move_back(region, spare, n.max(to.size()));
    }

    // Whether the hole h lies on the way from an item's home to its slot p.
    fn is_on_way(self, h: usize, home: usize, p: usize) -> bool
        requires { (h < 2 ^ self.lg) × (home < 2 ^ self.lg) × (p < 2 ^ self.lg) }
        ensures { result ≡ leb (apart (2 ^ self.lg) h p) (apart (2 ^ self.lg) home p) }
    {
        self.dist(h, p) <= self.dist(home, p)
    }

    // The room stays a clause, as in `refill`.
    // Moves a hole along, up to the next empty slot: an item goes to the hole where the hole lies on its way, and its slot is then the hole.
    fn shift(self, slots: &mut [u32], hole: usize)
        requires room { (2 ^ self.lg ≤ length slots.old) × (hole < 2 ^ self.lg) }
        requires all_small { AllSmall slots.old (2 ^ self.lg) self.valid }
        ensures { slots.new ≡ shifted slots.old self.lg self.valid (2 ^ self.lg) hole (next (2 ^ self.lg) hole) }
    {
        let mut h = hole;
        let mut p = self.step(hole);
        for _passed in 0..self.size() {
            let y = slots[p];
            if y == EMPTY {
                return;
            }
            let item = Item {
                value: y,
                shape: self,
            };
            if self.is_on_way(h, item.home(), p) {
                slots[h] = y;
                slots[p] = EMPTY;
                h = p;
            }
            p = self.step(p);
        }
    }

    // Halves the table while its items fill less than a quarter of it, through a spare that is empty before and after, and says what shape it ends at.
    // A rebuild touches the slots of its own table only, so that all of them together cost about one pass.
    fn halve(self, region: &mut [u32], spare: &mut [u32], items: u32) -> Shape
        requires { (length region.old ≡ length spare.old) × (spare.old ≡ blank spare.old) × Lawful region.old self.lg self.valid items }
        ensures { (region.new ≡ halved self.lg region.old self.lg self.valid items) × (result.lg ≡ halved_lg self.lg self.lg items) × (result.valid ≡ self.valid) × (spare.new ≡ blank spare.old) }
    {
        let mut shape = self;
        for lg in (2..self.lg).rev() {
            if shape.size() <= 4 * items as usize {
                return shape;
            }
            let half = Shape::lawful(lg, shape.valid);
            shape.rebuild(half, region, spare);
            shape = half;
        }
        shape
    }
}

impl Item {
    // Stores it where it is not there, at the slot where its search ends, in a table that must then double.
    fn grow(
        self,
        region: &mut [u32],
        spare: &mut [u32],
        items: u32,
        at: usize,
    ) -> Result<Option<PairTable>, Refusal>
        requires lawful { Lawful region.old self.shape.lg self.shape.valid items × (length region.old ≡ length spare.old) }
        requires found { (at ≡ spot region.old self.shape.lg self.shape.valid self.value) × (at < 2 ^ self.shape.lg) }
        ensures { GrownBy region.old spare.old self.shape.lg self.shape.valid items self.value region.new spare.new result }
    {
        let shape = self.shape;
        let grown = judge_growth(region, shape.lg + 1, shape.valid)?;
        region[at] = self.value;
        wipe(spare);
        shape.rebuild(grown, region, spare);
        Ok(Some(grown.table(items + 1)))
    }

    // Stores it. All is judged but the growth.
    pub fn insert(
        self,
        region: &mut [u32],
        spare: &mut [u32],
        items: u32,
    ) -> Result<Option<PairTable>, Refusal>
        requires { Lawful region.old self.shape.lg self.shape.valid items × (length region.old ≡ length spare.old) }
        ensures { InsertedBy region.old spare.old self.shape.lg self.shape.valid items self.value region.new spare.new result }
    {
        let at = self.lookup(region);
        if region[at] == self.value {
            return Ok(None);
        }
        if fit(items + 1, self.shape.lg) {
            region[at] = self.value;
            wipe(spare);
            return Ok(Some(self.shape.table(items + 1)));
        }
        self.grow(region, spare, items, at)
    }

    // Takes it out of slot `at`.
    #[tactic(auto, using(crate::proofs::Deleting::taken_out))]
    fn take_out(self, region: &mut [u32], at: usize)
        requires lawful { (c : ℕ) × Lawful region.old self.shape.lg self.shape.valid c }
        requires found { (at ≡ spot region.old self.shape.lg self.shape.valid self.value) × (at < 2 ^ self.shape.lg) × (get_or region.old at 0 ≡ self.value) }
        ensures { region.new ≡ remove region.old self.shape.lg self.shape.valid self.value }
    {
        region[at] = EMPTY;
        self.shape.shift(region, at);
    }

    // Takes it out. All is judged.
    pub fn delete(
        self,
        region: &mut [u32],
        spare: &mut [u32],
        items: u32,
    ) -> Result<Option<PairTable>, Refusal>
        requires { Lawful region.old self.shape.lg self.shape.valid items × (length region.old ≡ length spare.old) }
        ensures { DeletedBy region.old spare.old self.shape.lg self.shape.valid items self.value region.new spare.new result }
    {
        let at = self.lookup(region);
        if region[at] != self.value {
            return Ok(None);
        }
        self.take_out(region, at);
        wipe(spare);
        let shape = self.shape.halve(region, spare, items - 1);
        Ok(Some(shape.table(items - 1)))
    }
}
