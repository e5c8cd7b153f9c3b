// The codes of one pair: the book's code of its column step, zeros and a one, and the low bits of its row step.
ghost use Rattle.std.specs.Prelude.{◌^◌, ◌<◌};
ghost use Rattle.books.specs.Steps.{Shape};

use super::base_bits::BaseBits;

#[derive(Clone, Copy)]
pub struct PairCodes {
    // the book's
    pub entry: u64,
    pub zeros: u64,
    pub low: u64,
    pub base: BaseBits,
    ghost shaped: { Shape entry },
    ghost few: { zeros < 4294967296 },
    ghost lower: { low < 2 ^ base.count },
}
