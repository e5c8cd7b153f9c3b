// Bits and words.
ghost use Rattle.std.specs.Prelude.{[], ◌∷◌};
ghost use Rattle.refusals.specs.Outcome.{accepted};
ghost use Rattle.refusals.specs.Units.{words_for, bits_in};
ghost use Rattle.bridgenook.specs.Exports.{Says};

use super::answers::say;
use refusals::units;
use refusals::units::{Bits, Words};

pub fn bridgenook_words_for(bits: u64, answer: &mut [u64; 8]) -> u32
    ensures { Says (accepted (words_for bits ∷ [])) result answer.new }
{
    say(Ok(units::words_for(Bits(bits)).0), answer)
}

pub fn bridgenook_bits_in(words: u64, answer: &mut [u64; 8]) -> u32
    ensures { Says (accepted (bits_in words ∷ [])) result answer.new }
{
    say(Ok(units::bits_in(Words(words)).0), answer)
}
