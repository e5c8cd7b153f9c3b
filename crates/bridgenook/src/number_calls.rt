// Rows, flavor, offset, phase, base bits, and the most bits that n pairs take.
ghost use Rattle.numbers.specs.Calls.{rows_of, flavor_of, offset_of, phase_of, base_bits_of, most_bits_of};
ghost use Rattle.bridgenook.specs.Exports.{Says};

use super::answers::say;

pub fn bridgenook_rows(lg: u8, answer: &mut [u64; 8]) -> u32
    ensures { Says (rows_of lg) result answer.new }
{
    say(numbers::rows(lg), answer)
}

pub fn bridgenook_determine_flavor(lg: u8, coupons: u32, answer: &mut [u64; 8]) -> u32
    ensures { Says (flavor_of lg coupons) result answer.new }
{
    say(
        numbers::determine_flavor(lg, coupons).map(u64::from),
        answer,
    )
}

pub fn bridgenook_determine_correct_offset(lg: u8, coupons: u32, answer: &mut [u64; 8]) -> u32
    ensures { Says (offset_of lg coupons) result answer.new }
{
    say(
        numbers::determine_correct_offset(lg, coupons).map(u64::from),
        answer,
    )
}

pub fn bridgenook_determine_pseudo_phase(lg: u8, coupons: u32, answer: &mut [u64; 8]) -> u32
    ensures { Says (phase_of lg coupons) result answer.new }
{
    say(
        numbers::determine_pseudo_phase(lg, coupons).map(u64::from),
        answer,
    )
}

pub fn bridgenook_number_of_base_bits(lg: u8, pairs: u32, answer: &mut [u64; 8]) -> u32
    ensures { Says (base_bits_of lg pairs) result answer.new }
{
    say(
        numbers::number_of_base_bits(lg, pairs).map(u64::from),
        answer,
    )
}

pub fn bridgenook_most_bits(lg: u8, pairs: u32, answer: &mut [u64; 8]) -> u32
    ensures { Says (most_bits_of lg pairs) result answer.new }
{
    say(numbers::most_bits(lg, pairs), answer)
}
