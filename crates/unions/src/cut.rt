// A matrix and its shape, and how a row's word is cut: what is kept of it, with what is flipped, is its surprise word.
ghost use Rattle.std.specs.Prelude.{◌≡◌, ℕ, ◌%◌, ◌^◌, ◌<◌, length, get_or};
ghost use Rattle.std.specs.Int.Bits.{bit_and, bit_xor};
ghost use Rattle.matrices.specs.Parts.{windowed, surprise_word};

use super::shape::Shape;

#[derive(Clone, Copy)]
pub struct Cut<'a> {
    pub words: &'a [u64],
    pub shape: Shape,
    pub kept: u64,
    pub flipped: u64,
    ghost rows: { length words.now ≡ shape.size.k },
    ghost eights: { length words.now % 8 ≡ 0 },
    ghost fits: { (r : ℕ) → get_or words.now r 0 < 2 ^ 64 },
    ghost word: { (w : ℕ) → w < 2 ^ 64 → bit_xor (bit_and w kept) flipped ≡ surprise_word (windowed shape.flavor) shape.offset.column w },
}
