// An item that may stand in a table of a shape: below 2^valid, and not the empty slot's number.
ghost use Rattle.std.specs.Prelude.{◌≡◌, ◌^◌, ◌<◌};
ghost use Rattle.tables.specs.Slots.{empty};

use super::shape::Shape;

#[derive(Clone, Copy)]
pub struct Item {
    pub value: u32,
    pub shape: Shape,
    ghost small: { value < 2 ^ shape.valid },
    ghost full: { value ≡ empty → ⊥ },
}
