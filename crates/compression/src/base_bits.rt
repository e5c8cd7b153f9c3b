// How many low bits of a row step are written as they are.
ghost use Rattle.std.specs.Prelude.{◌≡◌, ◌%◌, ◌^◌, ◌≤◌, ◌<◌};
ghost use Rattle.numbers.specs.Numbers.{base_bits_at};

use numbers::size::SketchSize;

#[derive(Clone, Copy)]
pub struct BaseBits {
    pub count: u32,
    ghost few: { count ≤ 26 },
}

impl BaseBits {
    pub fn of(size: SketchSize, pairs: u32) -> BaseBits
        ensures { result.count ≡ base_bits_at size.k pairs }
    {
        BaseBits {
            count: u32::from(size.base_bits(pairs)),
        }
    }

    // The low bits of a number.
    pub fn low(self, n: u64) -> u64
        ensures { (result ≡ n % 2 ^ self.count) × (result < 2 ^ self.count) }
    {
        n % (1u64 << self.count)
    }
}
