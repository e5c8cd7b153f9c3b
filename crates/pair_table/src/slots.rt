// The slots of a table: where a search for an item ends.
// After `lookup` in src/cpc/pair_table.rs of the Rust crate datasketches 0.5.0 (Apache-2.0); changed: a search takes at most as many steps as there are slots, so that it ends on any memory.
ghost use Rattle.std.specs.Prelude.{◌≡◌, ◌^◌, ◌≤◌, ◌<◌, [], length, not, IfOk};
ghost use Rattle.laws.specs.Choose.{choose};
ghost use Rattle.refusals.specs.Outcome.{accepted, refused};
ghost use Rattle.tables.specs.Slots.{home, next, probe, spot, sized};
ghost use Rattle.tables.specs.Shapes.{Decides, steps, apart};
ghost use Rattle.refusals.specs.Told.{told_plain};

use super::item::Item;
use super::shape::Shape;
use super::{EMPTY, PairTable};
use refusals::Refusal;

// Whether an item is below 2^valid. Beyond 32 bits, all are.
pub fn below(item: u32, valid: u8) -> bool
    ensures { Decides (item < 2 ^ valid) result }
{
    u64::from(item) < 1 << valid.min(32)
}

impl Shape {
    // Refusal 15.
    pub(crate) fn of(lg: u8, valid: u8) -> Result<Shape, Refusal>
        ensures says { told_plain result ≡ choose (not (sized lg valid)) (refused 15 0) (accepted []) }
        ensures same { IfOk result (λ shape. (shape.lg ≡ lg) × (shape.valid ≡ valid)) }
    {
        if lg < 2 || 26 < lg || valid <= lg || 32 < valid {
            return Err(Refusal::NotLawful);
        }
        Ok(Shape::lawful(lg, valid))
    }

    // A shape that is known to be lawful.
    pub(crate) fn lawful(lg: u8, valid: u8) -> Shape
        requires { (2 ≤ lg) × (lg ≤ 26) × (lg < valid) × (valid ≤ 32) }
        ensures { (result.lg ≡ lg) × (result.valid ≡ valid) }
    {
        Shape {
            lg,
            valid,
            slots: 1 << lg,
        }
    }

    // The record of a table of this shape.
    pub(crate) fn table(self, items: u32) -> PairTable
        ensures { (result.lg ≡ self.lg) × (result.valid ≡ self.valid) × (result.items ≡ items) }
    {
        PairTable {
            lg: self.lg,
            valid: self.valid,
            items,
        }
    }

    // The number of slots.
    pub fn size(self) -> usize
        ensures { result ≡ 2 ^ self.lg }
    {
        self.slots
    }

    // The slot after p. That p is a slot stays a clause, here and in `dist`: a type for it would be unwrapped at each slot that is read, no plainer.
    #[tactic(auto, using(crate::proofs::Searching::steppings))]
    pub(crate) fn step(self, p: usize) -> usize
        requires { p < 2 ^ self.lg }
        ensures { (result ≡ next (2 ^ self.lg) p) × (result < 2 ^ self.lg) }
    {
        let n = self.size();
        let q = p + 1;
        if q == n { 0 } else { q }
    }

    // How many steps lead from h to p.
    pub(crate) fn dist(self, h: usize, p: usize) -> usize
        requires { (h < 2 ^ self.lg) × (p < 2 ^ self.lg) }
        ensures { (result < 2 ^ self.lg) × (steps (2 ^ self.lg) h result ≡ p) × (result ≡ apart (2 ^ self.lg) h p) }
    {
        if h <= p { p - h } else { self.size() - h + p }
    }
}

// That there are so many slots stays a clause here: a `Region` would bring a second shape, and with it a clause that the two are one.
impl Item {
    // The slot where the search for it begins: its high bits.
    #[tactic(auto, using(tables::proofs::Laws::home_lt), unfolding(tables::specs::Slots::home))]
    pub fn home(self) -> usize
        ensures { (result ≡ home self.shape.lg self.shape.valid self.value) × (result < 2 ^ self.shape.lg) }
    {
        (self.value >> (self.shape.valid - self.shape.lg)) as usize
    }

    // Where a search for it that stands at `from` ends.
    #[tactic(auto, using(crate::proofs::Searching::searches))]
    pub fn seek(self, slots: &[u32], from: usize) -> usize
        requires { (from < 2 ^ self.shape.lg) × (2 ^ self.shape.lg ≤ length slots.now) }
        ensures { (result ≡ probe slots.now (2 ^ self.shape.lg) self.value (2 ^ self.shape.lg) from) × (result < 2 ^ self.shape.lg) }
    {
        let mut p = from;
        for _passed in 0..self.shape.size() {
            let y = slots[p];
            if y == self.value || y == EMPTY {
                return p;
            }
            p = self.shape.step(p);
        }
        p
    }

    // Where the search for it ends.
    #[tactic(auto, unfolding(tables::specs::Slots::spot))]
    pub fn lookup(self, slots: &[u32]) -> usize
        requires { 2 ^ self.shape.lg ≤ length slots.now }
        ensures { (result ≡ spot slots.now self.shape.lg self.shape.valid self.value) × (result < 2 ^ self.shape.lg) }
    {
        self.seek(slots, self.home())
    }
}
