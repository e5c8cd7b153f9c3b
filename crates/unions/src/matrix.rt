// A matrix that is read: a word for each of its rows.
ghost use Rattle.std.specs.Prelude.{◌≡◌, ℕ, ◌^◌, ◌<◌, length, get_or};

use numbers::size::SketchSize;

#[derive(Clone, Copy)]
pub struct Matrix<'a> {
    pub size: SketchSize,
    pub words: &'a [u64],
    ghost long: { length words.now ≡ size.k },
    ghost fits: { (r : ℕ) → get_or words.now r 0 < 2 ^ 64 },
}
