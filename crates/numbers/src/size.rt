// The size of a sketch: lg_k, and the k rows that it stands for. What a size has to be stands here once.
ghost use Rattle.std.specs.Prelude.{◌≡◌, ◌^◌, ◌≤◌};

#[derive(Clone, Copy)]
pub struct SketchSize {
    pub lg: u8,
    pub k: u64,
    ghost low: { 4 ≤ lg },
    ghost high: { lg ≤ 26 },
    ghost power: { k ≡ 2 ^ lg },
    ghost least: { 16 ≤ k },
    ghost most: { k ≤ 67108864 },
}
