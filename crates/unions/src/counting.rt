// A matrix that is read: its length, its reserved bit, and its pairs, counted.
// After src/cpc/mod.rs (count_bits_set_in_matrix) of the Rust crate datasketches 0.5.0 (Apache-2.0); changed: the sum is a u64, since a u32 overflows at lg_k 26.
ghost use Rattle.std.specs.Prelude.{◌≡◌, ◌≢◌, ◌≤◌, length, IfOk, IfErr};
ghost use Rattle.laws.specs.Below.{one};
ghost use Rattle.refusals.specs.declared.Refusal.TheVariants.{WrongLength};
ghost use Rattle.matrices.specs.Matrix.{coupons, reserved};

use super::matrix::Matrix;
use numbers::size::SketchSize;
use refusals::Refusal;

impl<'a> Matrix<'a> {
    // Refusal 2 where there is not a word for each row.
    pub fn of(size: SketchSize, words: &'a [u64]) -> Result<Matrix<'a>, Refusal>
        ensures given { IfOk result (λ matrix. (matrix.size ≡ size) × (matrix.words.now ≡ words.now)) }
        ensures refused { IfErr result (λ why. (why ≡ WrongLength) × (length words.now ≢ size.k)) }
    {
        if (words.len() as u64) != size.k {
            return Err(Refusal::WrongLength);
        }
        Ok(Matrix { size, words })
    }

    // The reserved number's bit, which a matrix at lg_k 26 has.
    pub fn has_reserved(self) -> bool
        ensures { result ≡ reserved self.entry.size.lg self.entry.words.now }
    {
        if self.size.lg != 26 {
            return false;
        }
        (self.words[67108863] >> 63) % 2 == 1
    }

    // The set bits of all words.
    pub fn coupons(self) -> u64
        ensures { result ≡ coupons self.entry.words.now }
    {
        let mut sum: u64 = 0;
        for word in self.words {
            sum += u64::from(word.count_ones());
        }
        sum
    }
}

// 1 where the test holds: a sum of these has no branch.
pub fn one_if(holds: bool) -> u64
    ensures { (result ≡ one holds) × (result ≤ 1) }
{
    u64::from(holds)
}
