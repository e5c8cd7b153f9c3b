// The shape of a table: 2^lg slots for items below 2^valid. What a shape has to be stands here once.
ghost use Rattle.std.specs.Prelude.{◌≡◌, ◌^◌, ◌≤◌, ◌<◌};

#[derive(Clone, Copy)]
pub struct Shape {
    pub lg: u8,
    pub valid: u8,
    // held, and not computed where it is asked for: so the loops over the slots count up to a number
    pub slots: usize,
    ghost lg_least: { 2 ≤ lg },
    ghost lg_most: { lg ≤ 26 },
    ghost bits_least: { lg < valid },
    ghost bits_most: { valid ≤ 32 },
    ghost power: { slots ≡ 2 ^ lg },
}
