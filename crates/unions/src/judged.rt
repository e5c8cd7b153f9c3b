// A source that is judged: its pairs rise, their rows are below k, and none of them is in the columns of its window.
ghost use Rattle.std.specs.Prelude.{◌≡◌, ℕ, true, [], ◌/◌, ◌<◌, length, get_or};
ghost use Rattle.laws.specs.Choose.{choose};
ghost use Rattle.refusals.specs.Outcome.{accepted};
ghost use Rattle.matrices.specs.Parts.{windowed};
ghost use Rattle.matrices.specs.Shapes.{Sorted};
ghost use Rattle.matrices.specs.Source.{columns_judged};

use super::shape::Shape;

#[derive(Clone, Copy)]
pub struct Judged<'a> {
    pub shape: Shape,
    pub window: &'a [u8],
    pub pairs: &'a [u32],
    ghost long: { length window.now ≡ choose (windowed shape.flavor) shape.size.k 0 },
    ghost sorted: { Sorted pairs.now },
    ghost below: { (i : ℕ) → i < length pairs.now → get_or pairs.now i 0 / 64 < shape.size.k },
    ghost apart: { windowed shape.flavor ≡ true → columns_judged shape.offset.column 0 pairs.now ≡ accepted [] },
}
