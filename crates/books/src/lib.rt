// Books: the check of a book, the check of a book with a lent decoding table, the fill of a decoding table, and the pick of a window book by phase.
// In place of src/cpc/compression_data.rs of the Rust crate datasketches 0.5.0, whose fixed tables come as book files here.
#![tactic(auto)]

ghost use Rattle.std.specs.Prelude.{◌≡◌, not, [], IfOk};
ghost use Rattle.laws.specs.Choose.{choose};
ghost use Rattle.refusals.specs.Outcome.{accepted, refused};
ghost use Rattle.refusals.specs.Told.{told_plain};
ghost use Rattle.books.specs.Book.{one_symbol_each, sized};
ghost use Rattle.books.specs.Told.{told_pick};
ghost use Rattle.books.specs.Calls.{judged, check_of, check_table_of, fill_of, filled, pick_of, picked};
ghost use Rattle.books.specs.Steps.{first_judged};

mod book;
mod decoding;
mod marks;
mod shapes;

use book::{SizedBook, WholeBook};
use refusals::Refusal;

impl<'a> SizedBook<'a> {
    // 65 entries or 256.
    fn of(book: &'a [u16]) -> Result<SizedBook<'a>, Refusal>
        ensures told { told_plain result ≡ choose (not (sized book.now)) (refused 2 0) (accepted []) }
        ensures same { IfOk result (λ sized. sized.entries.now ≡ book.now) }
    {
        if !matches!(book.len(), 65 | 256) {
            return Err(Refusal::WrongLength);
        }
        Ok(SizedBook { entries: book })
    }

    // The shapes first, then whether the codewords take 4,096 numbers.
    fn judge_shapes(self) -> Result<WholeBook<'a>, Refusal>
        ensures told { told_plain result ≡ first_judged self.entry.entries.now }
        ensures same { IfOk result (λ whole. whole.entries.now ≡ self.entry.entries.now) }
    {
        if self.taken()? != 4096 {
            return Err(Refusal::WrongBook { place: 0 });
        }
        Ok(WholeBook {
            entries: self.entries,
        })
    }

    // The verdict on a book of the right length.
    fn judge(self) -> Result<WholeBook<'a>, Refusal>
        ensures told { told_plain result ≡ judged self.entry.entries.now (one_symbol_each self.entry.entries.now) }
        ensures same { IfOk result (λ whole. whole.entries.now ≡ self.entry.entries.now) }
    {
        let whole = self.judge_shapes()?;
        if !marks::covers(whole) {
            return Err(Refusal::WrongBook { place: 0 });
        }
        Ok(whole)
    }
}

// Does the book pass?
#[tactic(auto, using(laws::proofs::Choices::choices), unfolding(crate::specs::Calls::check_of))]
pub fn check_book(book: &[u16]) -> Result<(), Refusal>
    ensures { told_plain result ≡ check_of book.now }
{
    SizedBook::of(book)?.judge()?;
    Ok(())
}

// Does the book pass, and is the lent table its decoding table?
#[tactic(auto, using(laws::proofs::Choices::choices), unfolding(crate::specs::Calls::check_table_of))]
pub fn check_table(book: &[u16], table: &[u16]) -> Result<(), Refusal>
    ensures { told_plain result ≡ check_table_of book.now table.now }
{
    let sized = SizedBook::of(book)?;
    let Ok(table) = <&[u16; 4096]>::try_from(table) else {
        return Err(Refusal::WrongLength);
    };
    if !decoding::is_table(sized.judge_shapes()?, table) {
        return Err(Refusal::WrongBook { place: 0 });
    }
    Ok(())
}

// The lent table becomes the book's decoding table; a refusal changes nothing.
#[tactic(auto, using(laws::proofs::Choices::choices), unfolding(crate::specs::Calls::fill_of))]
pub fn fill_table(book: &[u16], table: &mut [u16]) -> Result<(), Refusal>
    ensures { (told_plain result ≡ fill_of book.now table.old) × (table.new ≡ filled book.now table.old) }
{
    let sized = SizedBook::of(book)?;
    if table.len() != 4096 {
        return Err(Refusal::WrongLength);
    }
    decoding::fill(sized.judge()?, table);
    Ok(())
}

// Where the phase's book lies in a book set.
#[tactic(auto, using(laws::proofs::Choices::choices), unfolding(crate::specs::Calls::pick_of))]
pub fn pick_place(set: &[u16], phase: u8) -> Result<usize, Refusal>
    ensures { told_pick result ≡ pick_of set.now phase }
{
    if set.len() != 5632 {
        return Err(Refusal::WrongLength);
    }
    match phase {
        // the steady phases, then the middle ones
        0..=15 | 16..=21 => Ok(usize::from(phase) * 256),
        _ => Err(Refusal::WrongBook { place: 0 }),
    }
}

// The phase's book; no entries where the pick is refused. It is not judged here. No Result, since `picked` in its clause may not change and the call
// cannot fail: `pick_place` is the one that refuses.
pub fn pick(set: &[u16], phase: u8) -> &[u16]
    ensures { result.now ≡ picked set.now phase }
{
    match pick_place(set, phase) {
        Ok(start) => &set[start..start + 256],
        Err(_) => &[],
    }
}
