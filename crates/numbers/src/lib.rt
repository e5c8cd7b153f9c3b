// The numbers of document 01: flavor, offset, phase and base bits; and the bits that n pairs are granted.
// After src/cpc/mod.rs and src/cpc/compression.rs of the Rust crate datasketches 0.5.0 (Apache-2.0); changed: each call is total and refuses by number.
#![tactic(auto)]

ghost use Rattle.std.specs.Prelude.{◌≡◌};
ghost use Rattle.refusals.specs.Told.{told_number, told_length};
ghost use Rattle.numbers.specs.Told.{flavor_number, told_flavor};
ghost use Rattle.numbers.specs.Calls.{rows_of, flavor_of, offset_of, phase_of, base_bits_of, most_bits_of};

mod formulas;
pub mod size;

use refusals::Refusal;
use refusals::units::StreamLength;
use size::SketchSize;

#[derive(Clone, Copy)]
pub enum Flavor {
    Empty,
    Sparse,
    Hybrid,
    Pinned,
    Sliding,
}

// The flavors in their order.
impl From<Flavor> for u64 {
    ghost from_gives = { λ flavor number. number ≡ flavor_number flavor };

    fn from(flavor: Flavor) -> u64 {
        match flavor {
            Flavor::Empty => 0,
            Flavor::Sparse => 1,
            Flavor::Hybrid => 2,
            Flavor::Pinned => 3,
            Flavor::Sliding => 4,
        }
    }
}

// k = 2^lg_k. Here every call's lg_k is judged: through `SketchSize::of`.
#[tactic(auto, using(laws::proofs::Choices::choices), unfolding(crate::specs::Calls::rows_of))]
pub fn rows(lg: u8) -> Result<u64, Refusal>
    ensures { told_number result ≡ rows_of lg }
{
    if lg < 4 || 26 < lg {
        return Err(Refusal::LgOutside);
    }
    Ok(1 << lg)
}

#[tactic(auto, using(laws::proofs::Choices::choices), unfolding(crate::specs::Calls::flavor_of))]
pub fn determine_flavor(lg: u8, coupons: u32) -> Result<Flavor, Refusal>
    ensures { told_flavor result ≡ flavor_of lg coupons }
{
    Ok(SketchSize::of(lg)?.flavor(coupons))
}

#[tactic(auto, using(laws::proofs::Choices::choices), unfolding(crate::specs::Calls::offset_of))]
pub fn determine_correct_offset(lg: u8, coupons: u32) -> Result<u8, Refusal>
    ensures { told_number result ≡ offset_of lg coupons }
{
    SketchSize::of(lg)?.offset(coupons)
}

#[tactic(auto, using(laws::proofs::Choices::choices), unfolding(crate::specs::Calls::phase_of))]
pub fn determine_pseudo_phase(lg: u8, coupons: u32) -> Result<u8, Refusal>
    ensures { told_number result ≡ phase_of lg coupons }
{
    Ok(SketchSize::of(lg)?.phase(coupons))
}

// How many low bits of a row step n pairs write as they are; the Rust's golomb_choose_number_of_base_bits.
#[tactic(auto, using(laws::proofs::Choices::choices), unfolding(crate::specs::Calls::base_bits_of))]
pub fn number_of_base_bits(lg: u8, pairs: u32) -> Result<u8, Refusal>
    ensures { told_number result ≡ base_bits_of lg pairs }
{
    Ok(SketchSize::of(lg)?.base_bits(pairs))
}

// What n pairs are granted, in bits and in words, whatever the pairs and the book: for sizing memory cards.
#[tactic(auto, using(laws::proofs::Choices::choices), unfolding(crate::specs::Calls::most_bits_of))]
pub fn most_bits(lg: u8, pairs: u32) -> Result<StreamLength, Refusal>
    ensures { told_length result ≡ most_bits_of lg pairs }
{
    SketchSize::of(lg)?.most_bits(pairs)
}
