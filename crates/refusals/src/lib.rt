// Document 01's refusals. Each answer of a public call that can refuse holds a `Refusal`.
#![tactic(auto)]

ghost use Rattle.std.specs.Prelude.{◌≡◌};
ghost use Rattle.refusals.specs.Outcome.{stopped, numbers_in};
ghost use Rattle.refusals.specs.Told.{told, told_reason};

pub mod units;

// Why a reader stopped: 6 to 9, and its own 10. `place` is the index of the pair or byte, `bit` a position in the stream: of 6 the first bit of the look
// that failed, else the bit after the pair.
// Each case has its place and bit: a struct of them around an enum would be no plainer for whoever matches a reason.
#[derive(Clone, Copy)]
pub enum Reason {
    // 6: the stream ends inside a read
    StreamEnds { place: u64, bit: u64 },
    // 7: the row step is 2^32 or more
    RowStepTooLarge { place: u64, bit: u64 },
    // 8: the row is not below k
    RowNotBelow { place: u64, bit: u64 },
    // 9: the column is not below 64
    ColumnNotBelow { place: u64, bit: u64 },
    // 10: the reserved number
    Reserved { place: u64, bit: u64 },
}

#[derive(Clone, Copy)]
pub enum Refusal {
    // 1: an lg_k outside 4..26
    LgOutside,
    // 2: a lent part of wrong length
    WrongLength,
    // 3: the book fails the check, the decoding table is not that book's, or there is no such phase; the place is the first symbol of wrong shape, else 0
    WrongBook { place: u64 },
    // 4: more than 2^28 pairs
    TooManyPairs,
    // 5: output or table region shorter than needed
    NoRoom,
    // 6 to 9, and 10 by a reader
    Reading(Reason),
    // 8: the row is not below k
    RowNotBelow { place: u64 },
    // 10: the reserved number, or its bit in a matrix
    Reserved { place: u64 },
    // 11: a pair not above the one before; in a table build, a duplicate
    NotAbove { place: u64 },
    // 12: an item not below 2^(valid bits)
    ItemNotBelow { place: u64 },
    // 13: the table must grow and may not
    CannotGrow,
    // 14: a window bit past column 63, or a listed pair inside the window's columns
    WrongWindow { place: u64 },
    // 15: the lent state is not lawful
    NotLawful,
    // 16: the seeds differ
    SeedsDiffer,
    // 17: the stated coupons differ from those held, or exceed 64k
    WrongCoupons,
}

// A refusal in document 01's numbers, in which C takes it: its number, its place and its bit position.
#[derive(Clone, Copy)]
pub struct Numbered {
    pub number: u32,
    pub place: u64,
    pub bit: u64,
}

impl Numbered {
    fn of(number: u32, place: u64, bit: u64) -> Numbered
        ensures { result ≡ numbers_in (stopped number place bit) }
    {
        Numbered { number, place, bit }
    }
}

// The one place where a refusal becomes numbers: 0 for a place or a bit that it does not carry.
impl From<Refusal> for Numbered {
    ghost from_gives = { λ refusal numbered. numbered ≡ numbers_in (told refusal) };

    fn from(refusal: Refusal) -> Numbered {
        match refusal {
            Refusal::LgOutside => Numbered::of(1, 0, 0),
            Refusal::WrongLength => Numbered::of(2, 0, 0),
            Refusal::WrongBook { place } => Numbered::of(3, place, 0),
            Refusal::TooManyPairs => Numbered::of(4, 0, 0),
            Refusal::NoRoom => Numbered::of(5, 0, 0),
            Refusal::Reading(reason) => reason.into(),
            Refusal::RowNotBelow { place } => Numbered::of(8, place, 0),
            Refusal::Reserved { place } => Numbered::of(10, place, 0),
            Refusal::NotAbove { place } => Numbered::of(11, place, 0),
            Refusal::ItemNotBelow { place } => Numbered::of(12, place, 0),
            Refusal::CannotGrow => Numbered::of(13, 0, 0),
            Refusal::WrongWindow { place } => Numbered::of(14, place, 0),
            Refusal::NotLawful => Numbered::of(15, 0, 0),
            Refusal::SeedsDiffer => Numbered::of(16, 0, 0),
            Refusal::WrongCoupons => Numbered::of(17, 0, 0),
        }
    }
}

impl From<Reason> for Numbered {
    ghost from_gives = { λ reason numbered. numbered ≡ numbers_in (told_reason reason) };

    fn from(reason: Reason) -> Numbered {
        match reason {
            Reason::StreamEnds { place, bit } => Numbered::of(6, place, bit),
            Reason::RowStepTooLarge { place, bit } => Numbered::of(7, place, bit),
            Reason::RowNotBelow { place, bit } => Numbered::of(8, place, bit),
            Reason::ColumnNotBelow { place, bit } => Numbered::of(9, place, bit),
            Reason::Reserved { place, bit } => Numbered::of(10, place, bit),
        }
    }
}
