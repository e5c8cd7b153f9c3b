// The two units of length: streams are counted in bits, files in 32-bit words. One becomes the other here and nowhere else,
// by functions and not by `From`: one rounds up and one saturates, and C calls both by these names.
ghost use Rattle.std.specs.Prelude.{◌≡◌};
ghost use Rattle.refusals.specs.Units.{words_for, bits_in};

#[derive(Clone, Copy)]
pub struct Bits(pub u64);

#[derive(Clone, Copy)]
pub struct Words(pub u64);

// The length of a stream in both units.
#[derive(Clone, Copy)]
pub struct StreamLength {
    // with pad, before the last word is filled
    pub bits: Bits,
    pub words: Words,
}

// The words that a stream of so many bits fills, the last one with zeros.
pub fn words_for(bits: Bits) -> Words
    ensures { result.0 ≡ words_for bits.0 }
{
    Words(bits.0.div_ceil(32))
}

// The bits that a file of so many words has room for; where a u64 cannot hold that number, the largest u64.
pub fn bits_in(words: Words) -> Bits
    ensures { result.0 ≡ bits_in words.0 }
{
    Bits(words.0.saturating_mul(32))
}
