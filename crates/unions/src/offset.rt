// Where the window of a sketch starts: the first of its eight columns.
ghost use Rattle.std.specs.Prelude.{◌≤◌};

#[derive(Clone, Copy)]
pub struct Offset {
    pub column: u64,
    ghost most: { column ≤ 61 },
}
