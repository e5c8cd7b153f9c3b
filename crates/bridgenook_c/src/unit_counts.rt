// Bits and words.
ghost use Rattle.std.specs.Prelude.{[], ◌∷◌};
ghost use Rattle.refusals.specs.Outcome.{accepted};
ghost use Rattle.refusals.specs.Units.{words_for, bits_in};
ghost use Rattle.bridgenook.specs.Exports.{Says};

#[unsafe(no_mangle)]
pub extern "C" fn bridgenook_words_for(bits: u64, answer: &mut [u64; 8]) -> u32
    ensures { Says (accepted (words_for bits ∷ [])) result answer.new }
{
    bridgenook::unit_counts::bridgenook_words_for(bits, answer)
}

#[unsafe(no_mangle)]
pub extern "C" fn bridgenook_bits_in(words: u64, answer: &mut [u64; 8]) -> u32
    ensures { Says (accepted (bits_in words ∷ [])) result answer.new }
{
    bridgenook::unit_counts::bridgenook_bits_in(words, answer)
}
