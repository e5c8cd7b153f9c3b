// A matrix that a source is merged into: it has at least the rows of its size, and those past them are zero.
ghost use Rattle.std.specs.Prelude.{◌≡◌, ℕ, ◌^◌, ◌≤◌, ◌<◌, length, get_or};

use numbers::size::SketchSize;

#[derive(Drop)]
pub struct Rows<'a> {
    pub words: &'a mut [u64],
    pub size: SketchSize,
    ghost within: { size.k ≤ length words.now },
    ghost fits: { (r : ℕ) → get_or words.now r 0 < 2 ^ 64 },
    ghost rest: { (r : ℕ) → size.k ≤ r → get_or words.now r 0 ≡ 0 },
}
