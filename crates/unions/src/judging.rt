// All that can be wrong with a source, found before anything is written.
// After the asserts of src/cpc/union.rs and src/cpc/sketch.rs of the Rust crate datasketches 0.5.0 (Apache-2.0); changed: each is refused by number, and what the Rust trusts is judged: the window's
// and the pairs' columns, and the stated coupons, which are counted without a matrix.
ghost use Rattle.std.specs.Prelude.{◌≡◌, true, ◌&&◌, [], ◌+◌, ◌-◌, ◌%◌, ◌≤◌, ◌<◌, eqb, leb, ltb, length, get_or, position, IfOk};
ghost use Rattle.std.specs.Int.Count.{ones};
ghost use Rattle.laws.specs.Below.{sum_below, count_below};
ghost use Rattle.laws.specs.Columns.{has};
ghost use Rattle.refusals.specs.Outcome.{accepted, and_then};
ghost use Rattle.refusals.specs.Told.{told_plain};
ghost use Rattle.pair_lists.specs.Lists.{pairs_judged};
ghost use Rattle.matrices.specs.Matrix.{in_window};
ghost use Rattle.matrices.specs.Parts.{windowed};
ghost use Rattle.matrices.specs.Source.{past_columns, window_judged, columns_judged, places_judged, source_judged};
ghost use Rattle.unions.specs.Steps.{held_judged, wrong_at};

use super::counting::one_if;
use super::judged::Judged;
use super::offset::Offset;
use super::parts::Parts;
use pair_lists::judge_pairs;
use refusals::Refusal;

// Refusal 14 at the first place that is wrong, if there is one.
fn refuse_at(first: Option<usize>) -> Result<(), Refusal>
    ensures { told_plain result ≡ wrong_at first }
{
    match first {
        Some(place) => Err(Refusal::WrongWindow {
            place: place as u64,
        }),
        None => Ok(()),
    }
}

impl Offset {
    // A window bit past column 63.
    fn past_columns(self, byte: u8) -> bool
        requires { 56 < self.column }
        ensures { result ≡ past_columns self.column byte }
    {
        u64::from(byte) >> (64 - self.column) != 0
    }

    fn first_past(self, window: &[u8]) -> Option<usize>
        requires { 56 < self.column }
        ensures { result ≡ position (past_columns self.column) window.now }
    {
        window.iter().position(|byte| self.past_columns(*byte))
    }

    // Refusal 14 by the window: up to offset 56 no byte reaches past column 63.
    fn judge_window(self, window: &[u8]) -> Result<(), Refusal>
        ensures { told_plain result ≡ window_judged self.column 0 window.now }
    {
        if self.column <= 56 {
            return Ok(());
        }
        refuse_at(self.first_past(window))
    }

    // A pair in the window's columns.
    fn in_window(self, pair: u32) -> bool
        ensures { result ≡ in_window self.column (pair % 64) }
    {
        let column = u64::from(pair % 64);
        self.column <= column && column < self.column + 8
    }

    fn first_inside(self, pairs: &[u32]) -> Option<usize>
        ensures { result ≡ position (λ pair. in_window self.column (pair % 64)) pairs.now }
    {
        pairs.iter().position(|pair| self.in_window(*pair))
    }

    // Refusal 14 by the pairs.
    fn judge_columns(self, pairs: &[u32]) -> Result<(), Refusal>
        ensures { told_plain result ≡ columns_judged self.column 0 pairs.now }
    {
        refuse_at(self.first_inside(pairs))
    }

    // The pairs below the window, which mean absence.
    fn count_below(self, pairs: &[u32]) -> u64
        ensures { (result ≡ count_below (length pairs.now) (λ i. ltb (get_or pairs.now i 0 % 64) self.column)) × (result ≤ length pairs.now) }
    {
        let mut sum: u64 = 0;
        for pair in pairs {
            sum += one_if(u64::from(*pair % 64) < self.column);
        }
        sum
    }
}

// The set bits of eight bytes, counted as one word.
fn count_eight(window: &[u8], i: usize) -> u64
    requires { i + 8 ≤ length window.now }
    ensures { (result ≡ sum_below 8 (λ j. ones (get_or window.now (i + j) 0))) × (result ≤ 64) }
{
    let word = u64::from_le_bytes([
        window[i],
        window[i + 1],
        window[i + 2],
        window[i + 3],
        window[i + 4],
        window[i + 5],
        window[i + 6],
        window[i + 7],
    ]);
    u64::from(word.count_ones())
}

// The set bits of all window bytes, eight at a time: a window has a multiple of eight.
fn count_window(window: &[u8]) -> u64
    requires { (length window.now ≤ 67108864) × (length window.now % 8 ≡ 0) }
    ensures { (result ≡ sum_below (length window.now) (λ i. ones (get_or window.now i 0))) × (result ≤ 536870912) }
{
    let mut sum: u64 = 0;
    for block in 0..window.len() / 8 {
        sum += count_eight(window, 8 * block);
    }
    sum
}

impl<'a> Parts<'a> {
    // The window bit of row 67108863, column 63.
    fn late_bit(self) -> bool
        requires { windowed self.shape.flavor ≡ true }
        ensures { result ≡ (eqb self.entry.shape.size.lg 26 && (leb 56 self.entry.shape.offset.column && has (get_or self.entry.window.now 67108863 0) (63 - self.entry.shape.offset.column))) }
    {
        let offset = self.shape.offset.column;
        if self.shape.size.lg != 26 {
            return false;
        }
        if offset < 56 {
            return false;
        }
        (u64::from(self.window[67108863]) >> (63 - offset)) % 2 == 1
    }

    // Refusals 10 and 17 of a source with a window. The coupons held are o·k, the window's ones, and the pairs above it less those below.
    fn judge_held(self) -> Result<(), Refusal>
        requires { (windowed self.shape.flavor ≡ true) × (pairs_judged self.shape.size.k self.pairs.now ≡ accepted [])
            × (window_judged self.shape.offset.column 0 self.window.now ≡ accepted []) × (columns_judged self.shape.offset.column 0 self.pairs.now ≡ accepted []) }
        ensures { told_plain result ≡ held_judged self.entry.shape.size.lg self.entry.shape.coupons self.entry.window.now self.entry.pairs.now }
    {
        if self.late_bit() {
            return Err(Refusal::Reserved { place: 67108863 });
        }
        let cells = self.shape.offset.column * (self.window.len() as u64);
        let sum = cells + count_window(self.window) + (self.pairs.len() as u64);
        let below = self.shape.offset.count_below(self.pairs);
        if sum != u64::from(self.shape.coupons) + 2 * below {
            return Err(Refusal::WrongCoupons);
        }
        Ok(())
    }

    // Refusals 14, 10 and 17 of a source with a window.
    fn judge_wide(self) -> Result<(), Refusal>
        requires { (windowed self.shape.flavor ≡ true) × (pairs_judged self.shape.size.k self.pairs.now ≡ accepted []) }
        ensures { told_plain result ≡ and_then (places_judged true self.entry.shape.offset.column self.entry.window.now self.entry.pairs.now)
            (held_judged self.entry.shape.size.lg self.entry.shape.coupons self.entry.window.now self.entry.pairs.now) }
    {
        self.shape.offset.judge_window(self.window)?;
        self.shape.offset.judge_columns(self.pairs)?;
        self.judge_held()
    }

    // The first faulty pair (8, 11, 10), 14, 10, 17.
    fn check(self) -> Result<(), Refusal>
        ensures { told_plain result ≡ source_judged self.entry.shape.size.lg self.entry.shape.coupons self.entry.window.now self.entry.pairs.now }
    {
        judge_pairs(self.shape.size.lg, self.pairs)?;
        if self.shape.is_wide() {
            return self.judge_wide();
        }
        if (self.pairs.len() as u64) != u64::from(self.shape.coupons) {
            return Err(Refusal::WrongCoupons);
        }
        Ok(())
    }

    pub fn judge(self) -> Result<Judged<'a>, Refusal>
        ensures told { told_plain result ≡ source_judged self.entry.shape.size.lg self.entry.shape.coupons self.entry.window.now self.entry.pairs.now }
        ensures given { IfOk result (λ source. (source.shape ≡ self.entry.shape) × (source.window.now ≡ self.entry.window.now) × (source.pairs.now ≡ self.entry.pairs.now)) }
    {
        self.check()?;
        Ok(Judged {
            shape: self.shape,
            window: self.window,
            pairs: self.pairs,
        })
    }
}
