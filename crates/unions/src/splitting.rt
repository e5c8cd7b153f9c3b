// A matrix split at the offset of its own count: a window byte for each row, and the increasing list of the surprises.
// After src/cpc/union.rs (to_sketch) of the Rust crate datasketches 0.5.0 (Apache-2.0); changed: the surprises go straight into a lent list, which is in order already; rows without one are
// passed over eight at a time; the surprises are counted first where the room might not do, so that nothing is written then; and the first interesting column is not capped at the offset.
ghost use Rattle.std.specs.Prelude.{◌≡◌, false, not, ◌++◌, ℕ, ◌+◌, ◌%◌, ◌≤◌, ◌<◌, eqb, ltb, length, get_or, drop};
ghost use Rattle.std.proofs.Math.Seq.{paste};
ghost use Rattle.laws.specs.Choose.{choose};
ghost use Rattle.matrices.specs.Matrix.{coupons, reserved};
ghost use Rattle.matrices.specs.Parts.{windowed, surprise_word, surprise_pairs};
ghost use Rattle.matrices.specs.Shapes.{row_pairs, windows};
ghost use Rattle.unions.specs.Steps.{QuietIf, Found, BlocksWithin, Added, SurpriseSum, SplitLeft, hit_rows, pairs_from, block_pairs};
ghost use Rattle.unions.specs.Told.{told_split};

use super::Summary;
use super::block::Block;
use super::counting::one_if;
use super::cut::Cut;
use super::matrix::Matrix;
use super::offset::Offset;
use super::shape::Shape;
use refusals::Refusal;

// The pairs of the word w at a row are written from n on; what stands elsewhere stays.
fn list_row(w: u64, row: u64, out: &mut [u32], n: usize) -> usize
    requires { (row < 67108864) × (n + length (row_pairs row w) ≤ length out.old) }
    ensures { (result ≡ n + length (row_pairs row w)) × (out.new ≡ paste out.old n (row_pairs row w) (length (row_pairs row w))) }
{
    let mut rest = w;
    let mut i = n;
    // A `while` that counts no index: an iterator of the columns of a word would be a type with clauses of its own for two loops, no plainer.
    while rest != 0 {
        let c = u64::from(rest.trailing_zeros());
        out[i] = (64 * row + c) as u32;
        rest ^= 1 << c;
        i += 1;
    }
    i
}

#[derive(Clone, Copy)]
pub struct Surprises {
    // all surprise words ORed
    pub ored: u64,
    // how many surprises there are
    pub count: usize,
}

impl Block<'_> {
    // The surprise words of the eight rows, ORed.
    fn any_surprise(self) -> u64
        ensures { QuietIf result (windowed self.entry.cut.shape.flavor) self.entry.cut.shape.offset.column self.entry.cut.words.now self.entry.first (self.entry.first + 8) }
    {
        let mut all: u64 = 0;
        for j in 0..8 {
            all |= self.cut.surprises(self.first + j);
        }
        all
    }

    // Which of the eight rows hold a surprise, as the columns of a word.
    fn hit_rows(self) -> u64
        ensures { result ≡ hit_rows (windowed self.entry.cut.shape.flavor) self.entry.cut.shape.offset.column self.entry.cut.words.now self.entry.first }
    {
        let mut hits: u64 = 0;
        for j in 0..8 {
            hits += one_if(self.cut.surprises(self.first + j) != 0) << j;
        }
        hits
    }

    // The surprises of the eight rows, counted.
    fn count(self) -> u64
        ensures { result ≡ length (pairs_from (windowed self.entry.cut.shape.flavor) self.entry.cut.shape.offset.column self.entry.cut.words.now self.entry.first 8) }
    {
        let mut count: u64 = 0;
        for j in 0..8 {
            count += u64::from(self.cut.surprises(self.first + j).count_ones());
        }
        count
    }

    // The surprises of the eight rows are listed after those before them: row by row, and only the rows that have any.
    fn list(self, out: &mut [u32], before: Surprises) -> Surprises
        requires { before.count + length (pairs_from (windowed self.cut.shape.flavor) self.cut.shape.offset.column self.cut.words.now self.first 8) ≤ length out.old }
        ensures { Added (pairs_from (windowed self.entry.cut.shape.flavor) self.entry.cut.shape.offset.column self.entry.cut.words.now self.entry.first 8) before out.old result out.new }
    {
        let mut rest = self.hit_rows();
        let mut ored = before.ored;
        let mut n = before.count;
        // A `while` over the columns of a word, as in `list_row`.
        while rest != 0 {
            let j = rest.trailing_zeros() as usize;
            let s = self.cut.surprises(self.first + j);
            ored |= s;
            n = list_row(s, (self.first + j) as u64, out, n);
            rest ^= 1 << j;
        }
        Surprises { ored, count: n }
    }
}

impl<'a> Cut<'a> {
    // An empty word's surprises are what is flipped, and a full word has besides them what is kept. Where there is no window, a word is its own surprise word.
    fn of(matrix: &'a [u64], shape: Shape) -> Cut<'a>
        requires { length matrix.now ≡ shape.size.k }
        ensures { (result.words.now ≡ matrix.now) × (result.shape ≡ shape) }
    {
        if shape.is_wide() {
            let flipped = shape.offset.surprises_of(0);
            let full = shape.offset.surprises_of(u64::MAX);
            return Cut {
                words: matrix,
                shape,
                kept: full ^ flipped,
                flipped,
            };
        }
        Cut {
            words: matrix,
            shape,
            kept: u64::MAX,
            flipped: 0,
        }
    }

    // The surprise word of a row.
    fn surprises(self, r: usize) -> u64
        requires { r < length self.words.now }
        ensures { result ≡ surprise_word (windowed self.entry.shape.flavor) self.entry.shape.offset.column (get_or self.entry.words.now r 0) }
    {
        (self.words[r] & self.kept) ^ self.flipped
    }

    // The blocks of eight rows that hold a surprise, up to 64 of them. No branch depends on the rows: each block is noted, and the next is noted over it if it holds none.
    fn find_blocks(self, from: usize, to: usize, found: &mut [usize; 64]) -> usize
        requires { (from ≤ to) × (to ≤ from + 512) × (to ≤ length self.words.now) × (from % 8 ≡ 0) × (to % 8 ≡ 0) }
        ensures { Found (windowed self.entry.shape.flavor) self.entry.shape.offset.column self.entry.words.now from to found.new result }
    {
        let mut n: usize = 0;
        for r in (from..to).step_by(8) {
            found[n] = r;
            let block = Block {
                cut: self,
                first: r,
            };
            n += one_if(block.any_surprise() != 0) as usize;
        }
        n
    }

    // The surprises of the blocks found, counted.
    fn count_blocks(self, found: &[usize]) -> u64
        requires { (length found.now ≤ 64) × BlocksWithin found.now (length self.words.now) }
        ensures { result ≡ length (block_pairs (windowed self.entry.shape.flavor) self.entry.shape.offset.column self.entry.words.now found.now (length found.now)) }
    {
        let mut count: u64 = 0;
        for r in found {
            let block = Block {
                cut: self,
                first: *r,
            };
            count += block.count();
        }
        count
    }

    // The surprises of a matrix, counted before any is written.
    fn survey(self) -> u64
        ensures { result ≡ length (surprise_pairs (windowed self.entry.shape.flavor) self.entry.shape.offset.column self.entry.words.now) }
    {
        let mut found = [0usize; 64];
        let mut count: u64 = 0;
        for from in (0..self.words.len()).step_by(512) {
            let to = self.words.len().min(from + 512);
            let many = self.find_blocks(from, to, &mut found);
            count += self.count_blocks(&found[..many]);
        }
        count
    }

    // Refusal 5. The surprises are no more than the coupons and the cells below the offset, so that they are counted only where there is less room.
    fn lacks_room(self, ones: u64, room: usize) -> bool
        requires { ones ≡ coupons self.words.now }
        ensures { result ≡ ltb room (length (surprise_pairs (windowed self.entry.shape.flavor) self.entry.shape.offset.column self.entry.words.now)) }
    {
        if ones + self.shape.offset.column * (self.words.len() as u64) <= (room as u64) {
            return false;
        }
        (room as u64) < self.survey()
    }

    // The surprises of the blocks found.
    fn list_blocks(self, found: &[usize], out: &mut [u32], before: Surprises) -> Surprises
        requires { BlocksWithin found.now (length self.words.now)
            × (before.count + length (block_pairs (windowed self.shape.flavor) self.shape.offset.column self.words.now found.now (length found.now)) ≤ length out.old) }
        ensures { Added (block_pairs (windowed self.entry.shape.flavor) self.entry.shape.offset.column self.entry.words.now found.now (length found.now)) before out.old result out.new }
    {
        let mut all = before;
        for r in found {
            let block = Block {
                cut: self,
                first: *r,
            };
            all = block.list(out, all);
        }
        all
    }

    // The list of the surprises; what stands after them stays.
    fn write_pairs(self, out: &mut [u32]) -> Surprises
        requires { length (surprise_pairs (windowed self.shape.flavor) self.shape.offset.column self.words.now) ≤ length out.old }
        ensures { SurpriseSum (windowed self.entry.shape.flavor) self.entry.shape.offset.column self.entry.words.now result
            × (out.new ≡ surprise_pairs (windowed self.entry.shape.flavor) self.entry.shape.offset.column self.entry.words.now
            ++ drop (length (surprise_pairs (windowed self.entry.shape.flavor) self.entry.shape.offset.column self.entry.words.now)) out.old) }
    {
        let mut found = [0usize; 64];
        let mut all = Surprises { ored: 0, count: 0 };
        for from in (0..self.words.len()).step_by(512) {
            let to = self.words.len().min(from + 512);
            let many = self.find_blocks(from, to, &mut found);
            all = self.list_blocks(&found[..many], out, all);
        }
        all
    }
}

// The window byte of each row.
fn write_windows(matrix: &[u64], offset: Offset, window: &mut [u8])
    requires { length window.old ≡ length matrix.now }
    ensures { window.new ≡ windows offset.column matrix.now }
{
    for (r, word) in matrix.iter().enumerate() {
        window[r] = offset.window_of(*word);
    }
}

// Empty and Sparse leave the window unwritten.
fn write_windows_if_any(matrix: &[u64], shape: Shape, window: &mut [u8])
    requires { length window.old ≡ length matrix.now }
    ensures { window.new ≡ choose (windowed shape.flavor) (windows shape.offset.column matrix.now) window.old }
{
    if shape.is_wide() {
        write_windows(matrix, shape.offset, window);
    }
}

// A matrix that 1, 2 and 10 let pass: refusal 5, or window and list are written.
pub fn split_rows(matrix: Matrix, window: &mut [u8], pairs: &mut [u32]) -> Result<Summary, Refusal>
    requires { (length window.old ≡ matrix.size.k) × (reserved matrix.size.lg matrix.words.now ≡ false) }
    ensures { SplitLeft matrix.entry.size.lg matrix.entry.words.now window.old pairs.old (told_split result) window.new pairs.new }
{
    let ones = matrix.coupons();
    let shape = Shape::of(matrix.size.lg, ones as u32)?;
    let cut = Cut::of(matrix.words, shape);
    if cut.lacks_room(ones, pairs.len()) {
        return Err(Refusal::NoRoom);
    }
    write_windows_if_any(matrix.words, shape, window);
    let found = cut.write_pairs(pairs);
    Ok(Summary {
        coupons: shape.coupons,
        flavor: shape.flavor,
        offset: shape.offset.column as u8,
        column: found.ored.trailing_zeros() as u8,
        pairs: found.count as u32,
    })
}
