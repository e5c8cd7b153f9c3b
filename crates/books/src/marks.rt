// Does every number below 4,096 have a symbol? A number n of j bits, 6 to 12, has the mark 2^j + n, a bit of an array of 128 words: the words
// from 2^(j-6) up are the numbers of j bits, and word 0 is not used.
ghost use Rattle.std.specs.Prelude.{◌≡◌, false, ℕ, ◌+◌, ◌%◌, ◌^◌, ◌≤◌, ◌<◌, eqb, length};
ghost use Rattle.laws.specs.Columns.{has};
ghost use Rattle.books.specs.Book.{one_symbol_each};
ghost use Rattle.books.specs.Steps.{marked, Decides, Marked, Marking, Joined, Widened, Spread, Full};

use super::book::WholeBook;

// The numbers below 64 whose low bits are the codeword, by doubling.
fn pattern(len: usize, codeword: usize) -> u64
    requires { (len ≤ 6) × (codeword < 2 ^ len) }
    ensures { (c : ℕ) → c < 64 → has result c ≡ eqb (c % 2 ^ len) codeword }
{
    let mut word = 1u64 << codeword;
    for bits in len..6 {
        word |= word << (1usize << bits);
    }
    word
}

// A short codeword is marked at all its numbers of six bits, as one word; a long one at itself.
fn mark(marks: &mut [u64; 128], len: usize, codeword: usize)
    requires { (len ≤ 12) × (codeword < 2 ^ len) }
    ensures { Marked marks.old marks.new len codeword }
{
    if len < 7 {
        marks[1] |= pattern(len, codeword);
        return;
    }
    let at = (1usize << len) + codeword;
    marks[at / 64] |= 1u64 << (at % 64);
}

fn mark_all(book: WholeBook, marks: &mut [u64; 128])
    requires { (at : ℕ) → marked marks.old at ≡ false }
    ensures { Marking book.entry.entries.now marks.new (length book.entry.entries.now) }
{
    for entry in book.entries {
        mark(marks, usize::from(entry / 4096), usize::from(entry % 4096));
    }
}

// So many words go into as many others. By an index, as both lie in one array: a split of it in two and two parts in step are no plainer.
fn join(marks: &mut [u64; 128], from: usize, to: usize, count: usize)
    requires { (from + count ≤ to) × (to + count ≤ 128) }
    ensures { Joined marks.old marks.new from to count }
{
    for i in 0..count {
        marks[to + i] |= marks[from + i];
    }
}

// A number of one more bit gets the mark of its low bits.
fn widen(marks: &mut [u64; 128], half: usize)
    requires { half ≤ 32 }
    ensures { Widened marks.old marks.new half }
{
    join(marks, half, half * 2, half);
    join(marks, half, half * 3, half);
}

// From six bits to twelve: in the end a number is marked if any symbol has it.
fn spread(marks: &mut [u64; 128])
    ensures { Spread marks.old marks.new }
{
    for d in 0..6u32 {
        widen(marks, 1 << d);
    }
}

fn all_marked(marks: &[u64; 128]) -> bool
    ensures { Decides (Full marks.now) result }
{
    marks[64..].iter().all(|word| *word == u64::MAX)
}

// Does the book pass? It does if no number is left out.
pub fn covers(book: WholeBook) -> bool
    ensures { result ≡ one_symbol_each book.entry.entries.now }
{
    let mut marks = [0; 128];
    mark_all(book, &mut marks);
    spread(&mut marks);
    all_marked(&marks)
}
