// A source written into a matrix of its own k.
// After src/cpc/sketch.rs (build_bit_matrix) of the Rust crate datasketches 0.5.0 (Apache-2.0); changed: the matrix is lent, and a row is stored once, from its window byte, before the pairs are flipped.
ghost use Rattle.std.specs.Prelude.{◌≡◌, [], ◌+◌, ◌*◌, length};
ghost use Rattle.laws.specs.Columns.{differs};
ghost use Rattle.matrices.specs.Listing.{in_list};
ghost use Rattle.matrices.specs.Matrix.{at, matrix_of};
ghost use Rattle.matrices.specs.Parts.{windowed};
ghost use Rattle.matrices.specs.Source.{expanded, source_set};

use super::judged::Judged;
use super::offset::Offset;
use super::words::flip_column;

// Each row from its window byte: what was there does not count, so nothing is cleared before.
fn join_rows(matrix: &mut [u64], offset: Offset, window: &[u8])
    requires { length window.now ≡ length matrix.old }
    ensures { matrix.new ≡ matrix_of (length matrix.old) (expanded offset.column window.now []) }
{
    for (r, byte) in window.iter().enumerate() {
        matrix[r] = offset.join(*byte, 0);
    }
}

// What a source would stand for if it listed no pair.
fn write_rows(matrix: &mut [u64], source: &Judged)
    requires { length matrix.old ≡ source.now.shape.size.k }
    ensures { matrix.new ≡ matrix_of (length matrix.old) (source_set (windowed source.now.shape.flavor) source.now.shape.offset.column source.now.window.now []) }
{
    if source.shape.is_wide() {
        join_rows(matrix, source.shape.offset, source.window);
        return;
    }
    matrix.fill(0);
}

// Each listed pair is flipped: a pair below the window means absence, and any other presence.
fn flip_pairs(matrix: &mut [u64], source: &Judged)
    requires { length matrix.old ≡ source.now.shape.size.k }
    ensures { matrix.new ≡ matrix_of (length matrix.old) (λ r c. differs (at matrix.old r c) (in_list source.now.pairs.now (64 * r + c))) }
{
    for pair in source.pairs {
        let row = (*pair / 64) as usize;
        let old = matrix[row];
        matrix[row] = flip_column(old, *pair);
    }
}

// The pairs that a source stands for.
pub fn fill(matrix: &mut [u64], source: &Judged)
    requires { length matrix.old ≡ source.now.shape.size.k }
    ensures { matrix.new ≡ matrix_of (length matrix.old) (source_set (windowed source.now.shape.flavor) source.now.shape.offset.column source.now.window.now source.now.pairs.now) }
{
    write_rows(matrix, source);
    flip_pairs(matrix, source);
}
