// A lent region that is long enough for a table of a shape, before it is judged.
ghost use Rattle.std.specs.Prelude.{◌^◌, ◌≤◌, length};

use super::shape::Shape;

#[derive(Clone, Copy)]
pub struct Region<'a> {
    pub slots: &'a [u32],
    pub shape: Shape,
    ghost room: { 2 ^ shape.lg ≤ length slots.now },
}
