// Where a pair starts from: the row of the pair before it, and the column that is predicted in that row.
ghost use Rattle.std.specs.Prelude.{◌≡◌, ◌+◌, ◌/◌, ◌%◌, ◌≤◌, ◌<◌};
ghost use Rattle.streams.specs.Written.{predicted};

#[derive(Clone, Copy)]
pub struct Before {
    pub row: u64,
    pub column: u64,
    ghost low_row: { row < 67108864 },
    ghost low_column: { column ≤ 64 },
}

impl Before {
    // No pair is before the first.
    pub fn start() -> Before
        ensures { (result.row ≡ 0) × (result.column ≡ 0) }
    {
        Before { row: 0, column: 0 }
    }

    pub fn after(pair: u32) -> Before
        ensures { (result.row ≡ pair / 64) × (result.column ≡ pair % 64 + 1) }
    {
        let pair = u64::from(pair);
        Before {
            row: pair / 64,
            column: pair % 64 + 1,
        }
    }

    // The column to step from: it returns to 0 when the row changes.
    #[tactic(auto, using(laws::proofs::Choices::choices))]
    pub fn predict(self, step: u64) -> u64
        ensures { (result ≡ predicted step self.column) × (result ≤ self.column) }
    {
        if step == 0 { self.column } else { 0 }
    }
}
