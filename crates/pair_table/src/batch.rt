// A list whose items may all go into a table of a shape: each is below 2^valid and not the empty slot's number, and they fill three quarters of the slots at most.
ghost use Rattle.std.specs.Prelude.{◌≡◌, ℕ, ◌*◌, ◌^◌, ◌≤◌, ◌<◌, length, get_or};
ghost use Rattle.tables.specs.Slots.{empty};

use super::shape::Shape;

#[derive(Clone, Copy)]
pub struct Batch<'a> {
    pub list: &'a [u32],
    pub shape: Shape,
    ghost fine: { (k : ℕ) → k < length list.now → (get_or list.now k 0 < 2 ^ shape.valid) × (get_or list.now k 0 ≡ empty → ⊥) },
    ghost load: { 4 * length list.now ≤ 3 * 2 ^ shape.lg },
}
