// The formulas behind the calls, over a size that is lawful.
// After src/cpc/mod.rs and src/cpc/compression.rs of the Rust crate datasketches 0.5.0 (Apache-2.0); changed: over k, in u64.
ghost use Rattle.std.specs.Prelude.{◌≡◌, ◌*◌, ◌≤◌, ◌<◌, true, [], ◌∷◌, ltb, IfOk, IfErr};
ghost use Rattle.laws.specs.Choose.{choose};
ghost use Rattle.refusals.specs.Outcome.{accepted, refused};
ghost use Rattle.refusals.specs.Told.{told_number, told_length};
ghost use Rattle.refusals.specs.Units.{words_for};
ghost use Rattle.refusals.specs.declared.Refusal.TheVariants.{LgOutside};
ghost use Rattle.numbers.specs.Calls.{outside, rows_of};
ghost use Rattle.numbers.specs.Told.{told_size};
ghost use Rattle.numbers.specs.Numbers.{flavor_at, offset_at, phase_at, middle_phase_at, floor_log2, base_bits_at, most_bits_at};

use super::size::SketchSize;
use super::{Flavor, rows};
use refusals::Refusal;
use refusals::units::{Bits, StreamLength, words_for};

impl SketchSize {
    pub fn of(lg: u8) -> Result<SketchSize, Refusal>
        ensures rows { told_size result ≡ rows_of lg }
        ensures same_lg { IfOk result (λ size. size.lg ≡ lg) }
        ensures refused { IfErr result (λ why. (why ≡ LgOutside) × (outside lg ≡ true)) }
    {
        let k = rows(lg)?;
        Ok(SketchSize { lg, k })
    }

    #[tactic(auto, using(laws::proofs::Choices::choices), unfolding(crate::specs::Numbers::flavor_at))]
    pub fn flavor(self, coupons: u32) -> Flavor
        ensures { result ≡ flavor_at self.k coupons }
    {
        let k = self.k;
        let coupons = u64::from(coupons);
        if coupons == 0 {
            Flavor::Empty
        } else if 32 * coupons < 3 * k {
            Flavor::Sparse
        } else if 2 * coupons < k {
            Flavor::Hybrid
        } else if 8 * coupons < 27 * k {
            Flavor::Pinned
        } else {
            Flavor::Sliding
        }
    }

    #[tactic(auto, using(laws::proofs::Choices::choices), unfolding(crate::specs::Numbers::offset_at))]
    pub fn offset(self, coupons: u32) -> Result<u8, Refusal>
        ensures { told_number result ≡ choose (ltb (64 * self.k) coupons) (refused 17 0) (accepted (offset_at self.k coupons ∷ [])) }
    {
        let k = self.k;
        let coupons = u64::from(coupons);
        if 64 * k < coupons {
            return Err(Refusal::WrongCoupons);
        }
        if 8 * coupons < 19 * k {
            return Ok(0);
        }
        Ok(((8 * coupons - 19 * k) / (8 * k)) as u8)
    }

    #[tactic(auto, using(laws::proofs::Choices::choices), unfolding(crate::specs::Numbers::phase_at))]
    pub fn phase(self, coupons: u32) -> u8
        ensures { result ≡ phase_at self.lg self.k coupons }
    {
        if 1000 * u64::from(coupons) < 2375 * self.k {
            return self.middle_phase(coupons);
        }
        ((coupons >> (self.lg - 4)) % 16) as u8
    }

    // The phase in the middle range, where 1000C < 2375k.
    #[tactic(auto, using(laws::proofs::Choices::choices), unfolding(crate::specs::Numbers::middle_phase_at))]
    fn middle_phase(self, coupons: u32) -> u8
        ensures { result ≡ middle_phase_at self.k coupons }
    {
        let k = self.k;
        let coupons = u64::from(coupons);
        if 4 * coupons < 3 * k {
            16
        } else if 10 * coupons < 11 * k {
            17
        } else if 100 * coupons < 132 * k {
            18
        } else if 3 * coupons < 5 * k {
            19
        } else if 1000 * coupons < 1965 * k {
            20
        } else if 1000 * coupons < 2275 * k {
            21
        } else {
            6
        }
    }

    #[tactic(auto, using(laws::proofs::Choices::choices), unfolding(crate::specs::Numbers::base_bits_at))]
    pub fn base_bits(self, pairs: u32) -> u8
        ensures value { result ≡ base_bits_at self.k pairs }
        ensures most { result ≤ 26 }
    {
        let pairs = u64::from(pairs);
        if pairs == 0 || self.k < pairs {
            return 0;
        }
        floor_log2(self.k / pairs)
    }

    // What n pairs are granted, whatever the pairs and the book.
    #[tactic(auto, using(laws::proofs::Choices::choices), unfolding(crate::specs::Numbers::most_bits_at))]
    pub fn most_bits(self, pairs: u32) -> Result<StreamLength, Refusal>
        ensures { told_length result ≡ choose (ltb 268435456 pairs) (refused 4 0)
            (accepted (most_bits_at self.k pairs ∷ words_for (most_bits_at self.k pairs) ∷ [])) }
    {
        if 0x1000_0000 < pairs {
            return Err(Refusal::TooManyPairs);
        }
        let bits = Bits(self.bits_granted(pairs));
        Ok(StreamLength {
            bits,
            words: words_for(bits),
        })
    }

    #[tactic(auto, using(laws::proofs::Choices::choices), unfolding(crate::specs::Numbers::most_bits_at))]
    fn bits_granted(self, pairs: u32) -> u64
        requires { pairs ≤ 268435456 }
        ensures { result ≡ most_bits_at self.k pairs }
    {
        if pairs == 0 {
            return 0;
        }
        u64::from(pairs) * (15 + u64::from(self.base_bits(pairs))) + 10
    }
}

// floor(log2(quotient)), by doubling until it is reached or passed. A `while` that counts no index; the exponent from the leading zeros is a change by itself,
// with a measurement of both, as the project has it for whatever is made faster.
fn floor_log2(quotient: u64) -> u8
    requires { (0 < quotient) × (quotient ≤ 67108864) }
    ensures value { result ≡ floor_log2 quotient }
    ensures most { result ≤ 26 }
{
    let mut bits: u8 = 0;
    let mut power: u64 = 1;
    while power < quotient {
        bits += 1;
        power *= 2;
    }
    if power == quotient {
        return bits;
    }
    bits - 1
}
