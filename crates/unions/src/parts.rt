// A source: its shape, a window of the length that this says, and its pairs.
ghost use Rattle.std.specs.Prelude.{◌≡◌, ℕ, ◌<◌, ◌^◌, length, get_or};
ghost use Rattle.laws.specs.Choose.{choose};
ghost use Rattle.matrices.specs.Parts.{windowed};

use super::shape::Shape;

#[derive(Clone, Copy)]
pub struct Parts<'a> {
    pub shape: Shape,
    pub window: &'a [u8],
    pub pairs: &'a [u32],
    ghost long: { length window.now ≡ choose (windowed shape.flavor) shape.size.k 0 },
    ghost bytes: { (r : ℕ) → get_or window.now r 0 < 2 ^ 8 },
}
