// A table that has been judged: its shape, and that its slots are lawful.
ghost use Rattle.std.specs.Prelude.{◌≡◌, ◌^◌, ◌≤◌, true, length};
ghost use Rattle.tables.specs.Slots.{lawful};

use super::shape::Shape;

#[derive(Clone, Copy)]
pub struct JudgedTable<'a> {
    pub slots: &'a [u32],
    pub shape: Shape,
    pub items: u32,
    ghost room: { 2 ^ shape.lg ≤ length slots.now },
    ghost passed: { lawful slots.now shape.lg shape.valid items ≡ true },
}
