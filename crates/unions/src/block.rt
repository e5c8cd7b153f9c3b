// Eight rows of a matrix that is split, from the first on.
ghost use Rattle.std.specs.Prelude.{◌+◌, ◌≤◌, length};

use super::cut::Cut;

#[derive(Clone, Copy)]
pub struct Block<'a> {
    pub cut: Cut<'a>,
    pub first: usize,
    ghost within: { first + 8 ≤ length cut.words.now },
}
