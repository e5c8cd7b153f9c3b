// Words of 64 columns: each function says which columns its result has, and it has no others.
// After src/cpc/union.rs and src/cpc/sketch.rs of the Rust crate datasketches 0.5.0 (Apache-2.0); changed: its masks and shifts, each a function with a contract.
ghost use Rattle.std.specs.Prelude.{◌≡◌, not, ◌||◌, ◌&&◌, ◌-◌, ◌%◌, ◌<◌, eqb, leb, ltb};
ghost use Rattle.laws.specs.Columns.{has, word_of, differs};
ghost use Rattle.matrices.specs.Matrix.{in_window};
ghost use Rattle.matrices.specs.Parts.{window_at, surprises_at};
ghost use Rattle.matrices.specs.Shapes.{joined_at};

use super::offset::Offset;
use numbers::size::SketchSize;

// The columns of either.
pub fn or_words(a: u64, b: u64) -> u64
    ensures { result ≡ word_of 64 (λ c. has a c || has b c) }
{
    a | b
}

// The columns of w, and a pair's column.
pub fn with_column(w: u64, pair: u32) -> u64
    ensures { result ≡ word_of 64 (λ c. has w c || eqb c (pair % 64)) }
{
    w | (1 << (pair % 64))
}

// The columns of w, and a pair's column if it is not before `first`.
pub fn with_column_from(w: u64, pair: u32, first: u64) -> u64
    ensures { result ≡ word_of 64 (λ c. has w c || (leb first c && eqb c (pair % 64))) }
{
    if u64::from(pair % 64) < first {
        return w;
    }
    with_column(w, pair)
}

// The columns of w, a pair's column flipped.
pub fn flip_column(w: u64, pair: u32) -> u64
    ensures { result ≡ word_of 64 (λ c. differs (has w c) (eqb c (pair % 64))) }
{
    w ^ (1 << (pair % 64))
}

impl Offset {
    // The columns of w, and those of the window byte b. What b has past column 63 is lost.
    fn with_window(self, w: u64, b: u8) -> u64
        ensures { result ≡ word_of 64 (λ c. has w c || (leb self.column c && has b (c - self.column))) }
    {
        w | (u64::from(b) << self.column)
    }

    // The columns of w, those below the window flipped.
    fn flip_below(self, w: u64) -> u64
        ensures { result ≡ word_of 64 (λ c. differs (has w c) (ltb c self.column)) }
    {
        w ^ ((1 << self.column) - 1)
    }

    // The columns of w outside the window.
    fn clear_window(self, w: u64) -> u64
        ensures { result ≡ word_of 64 (λ c. has w c && not (in_window self.column c)) }
    {
        w & !(255 << self.column)
    }

    // The window's eight columns of w.
    pub fn window_of(self, w: u64) -> u8
        ensures { result ≡ window_at self.column w }
    {
        ((w >> self.column) % 256) as u8
    }

    // The surprises of w: the window's columns cleared, those below it flipped.
    pub fn surprises_of(self, w: u64) -> u64
        ensures { result ≡ surprises_at self.column w }
    {
        self.flip_below(self.clear_window(w))
    }

    // The word with the window b and the surprises s; what s has in the window's columns does not count.
    pub fn join(self, b: u8, s: u64) -> u64
        ensures { result ≡ joined_at self.column b s }
    {
        self.with_window(self.clear_window(self.flip_below(s)), b)
    }
}

// The row of a matrix of this size on which a row falls.
pub fn row_in(row: usize, size: SketchSize) -> usize
    ensures { (result ≡ row % size.k) × (result < size.k) }
{
    row & (size.k as usize - 1)
}
