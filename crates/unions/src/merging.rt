// A source merged into a matrix, and a matrix folded.
// After src/cpc/union.rs (or_window_into_matrix, or_table_into_matrix, or_matrix_into_matrix, reduce_k) of the Rust crate datasketches 0.5.0 (Apache-2.0); changed: a matrix is folded where it
// lies, pairs come as an increasing list, and a row of a source is put together and ORed at once, so that no second matrix is built.
ghost use Rattle.std.specs.Prelude.{◌≡◌, ◌&&◌, ◌||◌, ◌+◌, ◌-◌, ◌*◌, ◌%◌, ◌≤◌, ◌<◌, min, ltb, length, set};
ghost use Rattle.laws.specs.Choose.{choose};
ghost use Rattle.laws.specs.Columns.{has, word_of};
ghost use Rattle.matrices.specs.Listing.{in_list};
ghost use Rattle.matrices.specs.Matrix.{at, matrix_of};
ghost use Rattle.matrices.specs.Parts.{windowed};
ghost use Rattle.matrices.specs.Shapes.{folded, merged};
ghost use Rattle.unions.specs.Rows.{LeftAs};
ghost use Rattle.unions.specs.Steps.{early_set, pairs_set, source_merged, lowered, NoneBefore, EarlyFrom, NextEarly, EndsAt, Stretched};

use super::judged::Judged;
use super::offset::Offset;
use super::rows::Rows;
use super::words::{or_words, row_in, with_column, with_column_from};
use numbers::size::SketchSize;

#[derive(Clone, Copy)]
pub struct Row {
    pub word: u64,
    pub next: usize,
}

impl Judged<'_> {
    // Where the next early pair stands, one below the window, from `start` on: past the last pair if there is none.
    fn next_early(&self, start: usize) -> usize
        requires { start ≤ length self.now.pairs.now }
        ensures { NextEarly self.now.shape.offset.column self.now.pairs.now start result }
    {
        let first = self.shape.offset.column;
        for i in start..self.pairs.len() {
            if u64::from(self.pairs[i] % 64) < first {
                return i;
            }
        }
        self.pairs.len()
    }

    // Where a stretch of rows ends: at the row of a pair, or at the last one.
    fn stretch_end(&self, start: usize, last: usize) -> usize
        ensures { EndsAt self.now.pairs.now start last result }
    {
        match self.pairs.get(start) {
            Some(pair) => last.min((*pair / 64) as usize),
            None => last,
        }
    }

    // The columns of the early pairs of a row, which come first in it, and where they end.
    fn early_pairs(&self, start: usize, row: u64) -> Row
        requires { (row < 67108864) × NoneBefore self.now.pairs.now start row × EarlyFrom self.now.shape.offset.column self.now.pairs.now start row }
        ensures { (result.word ≡ word_of 64 (λ c. ltb c self.now.shape.offset.column && in_list self.now.pairs.now (64 * row + c)))
            × EarlyFrom self.now.shape.offset.column self.now.pairs.now result.next (row + 1) }
    {
        let end = 64 * row + self.shape.offset.column;
        let mut word: u64 = 0;
        for i in start..self.pairs.len() {
            let pair = self.pairs[i];
            if end <= u64::from(pair) {
                return Row { word, next: i };
            }
            word = with_column(word, pair);
        }
        Row {
            word,
            next: self.pairs.len(),
        }
    }

    // The first column whose listed pairs are set by themselves: past the window, or 0 where there is none.
    fn first_late(&self) -> u64
        ensures { result ≡ choose (windowed self.now.shape.flavor) (self.now.shape.offset.column + 8) 0 }
    {
        if self.shape.is_wide() {
            return self.shape.offset.column + 8;
        }
        0
    }
}

// The last row that can follow `row` without a gap in a matrix of this size, and below the end.
fn last_row(row: usize, size: SketchSize, end: usize) -> usize
    requires { (row < end) × (end ≤ 67108864) }
    ensures { (row ≤ result) × (result < end) × (row % size.k + (result - row) < size.k) }
{
    let last = row + (size.k as usize - 1 - row_in(row, size));
    last.min(end - 1)
}

impl Rows<'_> {
    // The matrix is folded to its first `size.k` rows: the rows from there on become zero, as those from its present size on are.
    fn fold(&mut self, size: SketchSize)
        requires { size.k ≤ self.old.size.k }
        ensures { LeftAs self.old self.new size (matrix_of (length self.old.words.now) (folded size.k self.old.words.now)) }
    {
        for s in size.k as usize..self.size.k as usize {
            let t = row_in(s, size);
            let w = self.words[t];
            let v = self.words[s];
            self.words[t] = or_words(w, v);
            self.words[s] = 0;
        }
        self.size = size;
    }

    // The rows of a source from `from` to `to` on, which have no early pairs, are merged into rows that follow each other.
    fn merge_stretch(&mut self, offset: Offset, window: &[u8], from: usize, to: usize)
        requires { (from ≤ to) × (to ≤ length window.now) × (to ≤ 67108864) × (from % self.old.size.k + (to - from) < self.old.size.k) }
        ensures { Stretched self.old.size.k offset.column window.now from to self.old.words.now self.new.words.now × LeftAs self.old self.new self.old.size self.new.words.now }
    {
        let first = row_in(from, self.size);
        for r in from..to {
            let t = first + (r - from);
            let old = self.words[t];
            self.words[t] = or_words(old, offset.join(window[r], 0));
        }
    }

    // A word is merged into the row on which its row falls.
    fn merge_row(&mut self, row: usize, word: u64)
        ensures { LeftAs self.old self.new self.old.size (set self.old.words.now (row % self.old.size.k) (word_of 64 (λ c. at self.old.words.now (row % self.old.size.k) c || has word c))) }
    {
        let t = row_in(row, self.size);
        let old = self.words[t];
        self.words[t] = or_words(old, word);
    }

    // The rows of a source with a window, but for its late pairs, are merged: stretches without an early pair, and between them rows with some.
    fn merge_rows(&mut self, source: &Judged)
        ensures { LeftAs self.old self.new self.old.size (matrix_of (length self.old.words.now) (merged self.old.size.k (length source.now.window.now) self.old.words.now (early_set source.now.shape.offset.column source.now.window.now source.now.pairs.now))) }
    {
        let offset = source.shape.offset;
        let window = source.window;
        let mut start = 0;
        let mut r = 0;
        // A `while`, since a turn takes a whole stretch of rows: a `for` over rows is no plainer.
        while r < window.len() {
            let next = source.next_early(start);
            let stop = source.stretch_end(next, last_row(r, self.size, window.len()));
            self.merge_stretch(offset, window, r, stop);
            let row = source.early_pairs(next, stop as u64);
            self.merge_row(stop, offset.join(window[stop], row.word));
            start = row.next;
            r = stop + 1;
        }
    }

    // The pairs from column `first` on are set.
    fn merge_pairs(&mut self, first: u64, pairs: &[u32])
        ensures { LeftAs self.old self.new self.old.size (matrix_of (length self.old.words.now) (pairs_set self.old.size.k first self.old.words.now pairs.now (length pairs.now))) }
    {
        for pair in pairs {
            let t = row_in((*pair / 64) as usize, self.size);
            let old = self.words[t];
            self.words[t] = with_column_from(old, *pair, first);
        }
    }

    // A source is merged: by rows, of which there are none without a window, and then the pairs that are left.
    fn merge_source(&mut self, source: &Judged)
        ensures { LeftAs self.old self.new self.old.size (source_merged self.old.size.lg (windowed source.now.shape.flavor) source.now.shape.offset.column self.old.words.now source.now.window.now source.now.pairs.now) }
    {
        self.merge_rows(source);
        self.merge_pairs(source.first_late(), source.pairs);
    }

    // The matrix of a union is folded to a source's k where that is smaller.
    fn lower(&mut self, from: SketchSize)
        ensures { (self.new.size.lg ≡ min self.old.size.lg from.lg) × LeftAs self.old self.new self.new.size (lowered self.old.size.lg from.lg self.old.words.now) }
    {
        if from.lg < self.size.lg {
            self.fold(from);
        }
    }

    // A source is merged into the matrix of a union, whose size may be less from then on.
    pub fn take_in(&mut self, source: &Judged)
        ensures { (self.new.size.lg ≡ min self.old.size.lg source.now.shape.size.lg)
            × LeftAs self.old self.new self.new.size (source_merged self.new.size.lg (windowed source.now.shape.flavor) source.now.shape.offset.column (lowered self.old.size.lg source.now.shape.size.lg self.old.words.now) source.now.window.now source.now.pairs.now) }
    {
        self.lower(source.shape.size);
        self.merge_source(source);
    }
}
