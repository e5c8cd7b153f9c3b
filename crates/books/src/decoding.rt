// A book's decoding table: is a lent table the book's, and the fill of one.
ghost use Rattle.std.specs.Prelude.{◌≡◌, true, ◌&&◌, ◌+◌, ◌*◌, ◌≤◌, ◌<◌, length};
ghost use Rattle.laws.specs.Below.{one};
ghost use Rattle.books.specs.Book.{length_in, one_symbol_each};
ghost use Rattle.books.specs.Table.{table_of, is_table_of};
ghost use Rattle.books.specs.Steps.{Shape, Decides, breaks, Repeats, AllRepeat, Stands, Entered};

use super::book::WholeBook;

// A symbol's entry in a decoding table.
fn entry_of(entry: u16, x: usize) -> u16
    requires { (x < 256) × Shape entry }
    ensures { result ≡ length_in entry * 256 + x }
{
    entry / 4096 * 256 + x as u16
}

// 1 for an entry below the limit that is not repeated.
fn one_if_broken(a: u16, b: u16, limit: u16) -> u16
    ensures { (result ≡ one (breaks a b limit)) × (result ≤ 1) }
{
    u16::from(a < limit && b != a)
}

// The next bit decides nothing for an entry below the limit: it stands in the second half too. What breaks that is counted, with no way out of
// the loop, so that it runs many at a time.
fn level_repeats(table: &[u16; 4096], half: usize, limit: u16) -> bool
    requires { half ≤ 2048 }
    ensures { Decides (Repeats table.now half limit) result }
{
    let mut count: u16 = 0;
    for (a, b) in table[..half].iter().zip(&table[half..half * 2]) {
        count += one_if_broken(*a, *b, limit);
    }
    count == 0
}

// An entry of at most so many bits, length * 256 + symbol, is below (bits + 1) * 256.
fn repeats(table: &[u16; 4096]) -> bool
    ensures { Decides (AllRepeat table.now) result }
{
    for bits in 0..12 {
        if !level_repeats(table, 1 << bits, (bits + 1) * 256) {
            return false;
        }
    }
    true
}

// Each symbol's entry stands at its codeword.
fn stands(book: WholeBook, table: &[u16; 4096]) -> bool
    ensures { Decides (Stands book.entry.entries.now table.now) result }
{
    for (x, entry) in book.entries.iter().enumerate() {
        if table[usize::from(entry % 4096)] != entry_of(*entry, x) {
            return false;
        }
    }
    true
}

// Does the book pass, and is the table its own? The lent table is judged by itself, so none is built: what stands and repeats holds each symbol
// at all its numbers.
pub fn is_table(book: WholeBook, table: &[u16; 4096]) -> bool
    ensures { result ≡ (one_symbol_each book.entry.entries.now && is_table_of book.entry.entries.now table.now) }
{
    if !stands(book, table) {
        return false;
    }
    repeats(table)
}

// A symbol's entry at each of its numbers.
fn enter(table: &mut [u16], entry: u16, x: usize)
    requires { (length table.old ≡ 4096) × (x < 256) × Shape entry }
    ensures { Entered table.old table.new entry x }
{
    let value = entry_of(entry, x);
    let first = usize::from(entry % 4096);
    for n in (first..4096).step_by(1 << (entry / 4096)) {
        table[n] = value;
    }
}

// The table of a book that passes. No entry is written twice, as a number has one symbol.
pub fn fill(book: WholeBook, table: &mut [u16])
    requires { (one_symbol_each book.entries.now ≡ true) × (length table.old ≡ 4096) }
    ensures { table.new ≡ table_of book.entry.entries.now }
{
    for (x, entry) in book.entries.iter().enumerate() {
        enter(table, *entry, x);
    }
}
