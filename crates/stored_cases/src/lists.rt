// Lists: items that commas part, read from left to right. `-` alone is the empty list.
ghost use Rattle.std.specs.Prelude.{◌≡◌, ◌+◌, ◌<◌, ◌≤◌, length, take, IfOk, OnOk};

use super::cases::LONGEST;
use super::items::Item;
use super::verdicts::NoVerdict;

// Never more than so many numbers. They lie in the value itself: its memory is fixed, so no case can run out of memory.
#[derive(Drop)]
pub struct List<T, const ROOM: usize> {
    entries: [T; ROOM],
    // how many of the entries are in the list; what stands behind them is left over
    length: usize,
    ghost within: { length ≤ ROOM },
}

impl<T, const ROOM: usize> List<T, ROOM> {
    // The numbers of the list, and nothing that is left over behind them.
    pub fn as_slice(&self) -> &[T]
        ensures value { result.now ≡ take self.now.length self.now.entries }
        ensures all { length result.now ≡ self.now.length }
        ensures few { length result.now ≤ ROOM }
    {
        &self.entries[..self.length]
    }

    pub fn as_mut_slice(&mut self) -> &mut [T]
        ensures value { result.now ≡ take self.old.length self.old.entries }
        ensures all { length result.now ≡ self.old.length }
        ensures few { length result.now ≤ ROOM }
    {
        let length = self.length;
        let entries = &mut self.entries;
        &mut entries[..length]
    }
}

impl<T: Default, const ROOM: usize> List<T, ROOM> {
    // No numbers.
    pub fn new() -> List<T, ROOM>
        ensures { result.length ≡ 0 }
    {
        List {
            entries: Default::default(),
            length: 0,
        }
    }
}

// As a place or a number of places.
fn places(number: u64) -> Result<usize, NoVerdict>
    ensures { IfOk result (λ places. places ≡ number) }
{
    usize::try_from(number).map_err(|_| NoVerdict::NotACase)
}

// What the items read so far make: the first entries of what is lent.
#[derive(Drop)]
struct Filling<'a> {
    entries: &'a mut [u64],
    filled: usize,
    ghost within: { filled ≤ length entries.now },
}

impl Filling<'_> {
    // Where the list ends with so many numbers more.
    fn end_with(&self, more: usize) -> Result<usize, NoVerdict>
        ensures { IfOk result (λ end. (end ≡ self.now.filled + more) × (end ≤ length self.now.entries.now)) }
    {
        let end = self.filled.checked_add(more).ok_or(NoVerdict::NotACase)?;
        if end > self.entries.len() {
            return Err(NoVerdict::NotACase);
        }
        Ok(end)
    }

    fn push_times(&mut self, value: u64, times: u64) -> Result<(), NoVerdict> {
        let end = self.end_with(places(times)?)?;
        self.entries[self.filled..end].fill(value);
        self.filled = end;
        Ok(())
    }

    // None of them is 2^64 or more, if the last is not: so none wraps.
    fn push_rising(&mut self, first: u64, times: u64) -> Result<(), NoVerdict> {
        let end = self.end_with(places(times)?)?;
        if first.checked_add(times.saturating_sub(1)).is_none() {
            return Err(NoVerdict::NotACase);
        }
        for (place, done) in self.entries[self.filled..end].iter_mut().zip(0..times) {
            *place = first.wrapping_add(done);
        }
        self.filled = end;
        Ok(())
    }

    fn push_all(&mut self, entries: &[u16]) -> Result<(), NoVerdict> {
        let end = self.end_with(entries.len())?;
        for (place, entry) in self.entries[self.filled..end].iter_mut().zip(entries) {
            *place = u64::from(*entry);
        }
        self.filled = end;
        Ok(())
    }

    // Not inlined, here and below: else a book's or table's array is filled for every item.
    #[inline(never)]
    fn push_pair_book(&mut self) -> Result<(), NoVerdict> {
        self.push_all(&practice::pair_book())
    }

    #[inline(never)]
    fn push_window_book(&mut self) -> Result<(), NoVerdict> {
        self.push_all(&practice::window_book())
    }

    #[inline(never)]
    fn push_pair_table(&mut self) -> Result<(), NoVerdict> {
        self.push_all(&practice::pair_table())
    }

    // The practice window book's decoding table has no constant: the library fills it.
    #[inline(never)]
    fn push_window_table(&mut self) -> Result<(), NoVerdict> {
        let mut table = [0; 4096];
        if books::fill_table(&practice::window_book(), &mut table).is_err() {
            return Err(NoVerdict::NotACase);
        }
        self.push_all(&table)
    }

    fn cut(&mut self, end: u64) -> Result<(), NoVerdict>
        ensures end { OnOk result (self.new.filled ≡ end) }
        ensures no_longer { OnOk result (self.new.filled ≤ self.old.filled) }
    {
        let end = places(end)?;
        if end > self.filled {
            return Err(NoVerdict::NotACase);
        }
        self.filled = end;
        Ok(())
    }

    fn put(&mut self, place: u64, value: u64) -> Result<(), NoVerdict>
        ensures inside { OnOk result (place < self.old.filled) }
        ensures as_long { self.new.filled ≡ self.old.filled }
    {
        let place = places(place)?;
        if place >= self.filled {
            return Err(NoVerdict::NotACase);
        }
        self.entries[place] = value;
        Ok(())
    }

    fn take(&mut self, item: Item) -> Result<(), NoVerdict> {
        match item {
            Item::Times { value, times } => self.push_times(value, times),
            Item::Rising { first, times } => self.push_rising(first, times),
            Item::Cut(end) => self.cut(end),
            Item::Put { place, value } => self.put(place, value),
            Item::PairBook => self.push_pair_book(),
            Item::WindowBook => self.push_window_book(),
            Item::PairTable => self.push_pair_table(),
            Item::WindowTable => self.push_window_table(),
        }
    }

    fn read(&mut self, text: &str) -> Result<(), NoVerdict> {
        if text != "-" {
            for item in text.split(',') {
                self.take(item.parse()?)?;
            }
        }
        Ok(())
    }
}

// The list that `text` is, at the start of what is lent: how long it is. On the way, too, there are never more numbers than there is room for.
pub(crate) fn read_into(text: &str, entries: &mut [u64]) -> Result<usize, NoVerdict>
    ensures { IfOk result (λ end. end ≤ length entries.new) }
{
    let room = entries.len();
    // `filled` is at most `room`. But no clause says that a method leaves this very slice in `filling`, so the answer is cut to `room`.
    let mut filling = Filling { entries, filled: 0 };
    filling.read(text)?;
    Ok(filling.filled.min(room))
}

impl<const ROOM: usize> List<u64, ROOM> {
    // Becomes the list that `text` is, or empty, where that is none, or is longer, be it only on the way.
    pub(crate) fn read(&mut self, text: &str) -> Result<(), NoVerdict> {
        self.length = 0;
        self.length = read_into(text, &mut self.entries[..])?;
        Ok(())
    }
}

impl<T: TryFrom<u64> + Drop, const MOST: usize> List<T, MOST>
where
    T::Error: Drop,
{
    // Becomes the same numbers, where there are at most so many and each fits.
    fn narrow(&mut self, wide: &[u64]) -> Result<(), NoVerdict>
        ensures { OnOk result (self.new.length ≡ length wide.now) }
    {
        if wide.len() > MOST {
            return Err(NoVerdict::NotACase);
        }
        for (place, entry) in self.entries.iter_mut().zip(wide) {
            *place = T::try_from(*entry).map_err(|_| NoVerdict::NotACase)?;
        }
        self.length = wide.len();
        Ok(())
    }

    // Becomes the list that `text` is, where it is at most so long and each number fits. On the way it may be longer.
    pub(crate) fn read_as(&mut self, text: &str) -> Result<(), NoVerdict> {
        let mut wide = [0; LONGEST];
        let end = read_into(text, &mut wide)?;
        self.narrow(&wide[..end])
    }
}

// Whether the list that `text` is holds just the numbers that were lent.
pub(crate) fn is_list<T: Copy>(text: &str, lent: &[T]) -> Result<bool, NoVerdict>
where
    u64: From<T>,
{
    let mut wide = [0; LONGEST];
    let end = read_into(text, &mut wide)?;
    let list = &wide[..end];
    Ok(
        list.len() == lent.len()
            && list
                .iter()
                .zip(lent)
                .all(|(number, entry)| *number == u64::from(*entry)),
    )
}
