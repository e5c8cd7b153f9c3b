// A book that the tests let through, step by step: what everything after a step rests on stands here once.
ghost use Rattle.std.specs.Prelude.{◌≡◌, ◌≤◌, length};
ghost use Rattle.books.specs.Steps.{AllShaped, taken};

// A book of the right length.
#[derive(Clone, Copy)]
pub struct SizedBook<'a> {
    pub entries: &'a [u16],
    ghost short: { length entries.now ≤ 256 },
}

// A book that passes the tests of its shapes and of their sum.

#[derive(Clone, Copy)]
pub struct WholeBook<'a> {
    pub entries: &'a [u16],
    ghost short: { length entries.now ≤ 256 },
    ghost shaped: { AllShaped entries.now },
    // the codewords take 4,096 numbers, all together
    ghost whole: { taken entries.now ≡ 4096 },
}
