// Streams of pairs and of windows, written and read.
// After src/cpc/compression.rs of the Rust crate datasketches 0.5.0 (Apache-2.0); changed: lent slices for `Vec`, a cursor by value beside the slice, books that are lent and judged, and
// each call is total and refuses by number.
#![tactic(auto)]

ghost use Rattle.std.specs.Prelude.{◌≡◌};
ghost use Rattle.refusals.specs.Told.{told_plain, told_length};
ghost use Rattle.streams.specs.Calls.{read_pairs_of, pairs_read, read_window_of, window_read, write_pairs_of, pairs_written, write_window_of, window_written};

mod base_bits;
mod before;
mod book;
mod coded_stream;
mod coding;
mod lending;
mod pair_codes;
mod pair_list;
mod pair_putter;
mod pair_reader;
mod pair_writer;
mod reader;
mod step_reader;
mod window;
mod window_reader;
mod window_writer;
mod writer;

use base_bits::BaseBits;
use book::whole_book;
use lending::{coded_stream, judge_room};
use numbers::size::SketchSize;
use pair_list::lawful_list;
use pair_reader::PairReader;
use pair_writer::PairWriter;
use refusals::Refusal;
use refusals::units::StreamLength;
use window::Window;
use window_writer::WindowWriter;

// `count` pairs, read from a stream to the front of the output. 6 to 10 sit in `Refusal::Reading`, with the item's index and the bit position.
pub fn read_pairs(
    book: &[u16],
    table: &[u16],
    lg: u8,
    count: u32,
    stream: &[u8],
    out: &mut [u32],
) -> Result<(), Refusal>
    ensures { (told_plain result ≡ read_pairs_of book.now table.now lg count stream.now out.old)
        × (out.new ≡ pairs_read book.now table.now lg count stream.now out.old) }
{
    let size = SketchSize::of(lg)?;
    let coded = coded_stream::<65>(book, table, stream)?;
    judge_room(count, out.len())?;
    let base = BaseBits::of(size, count);
    PairReader { coded, size, base }.read_into(count as usize, out)
}

// A window of k bytes, read from a stream. 6 sits in `Refusal::Reading`, as for pairs.
pub fn read_window(
    book: &[u16],
    table: &[u16],
    lg: u8,
    stream: &[u8],
    window: &mut [u8],
) -> Result<(), Refusal>
    ensures { (told_plain result ≡ read_window_of book.now table.now lg stream.now window.old)
        × (window.new ≡ window_read book.now table.now lg stream.now window.old) }
{
    let size = SketchSize::of(lg)?;
    if (window.len() as u64) != size.k {
        return Err(Refusal::WrongLength);
    }
    let coded = coded_stream::<256>(book, table, stream)?;
    window_reader::read_into(coded, window)
}

// Pairs written as whole words at the front of the output; all is judged before anything is written. The answer has the bits with pad, before the last word is filled.
pub fn write_pairs(
    book: &[u16],
    lg: u8,
    pairs: &[u32],
    out: &mut [u8],
) -> Result<StreamLength, Refusal>
    ensures { (told_length result ≡ write_pairs_of book.now lg pairs.now out.old) × (out.new ≡ pairs_written book.now lg pairs.now out.old) }
{
    let size = SketchSize::of(lg)?;
    let book = whole_book::<65>(book)?;
    let list = lawful_list(size, pairs)?;
    coding::write(&PairWriter::new(book, list), out)
}

// A window written as whole words at the front of the output; all is judged before anything is written. The answer is as for pairs.
pub fn write_window(
    book: &[u16],
    lg: u8,
    window: &[u8],
    out: &mut [u8],
) -> Result<StreamLength, Refusal>
    ensures { (told_length result ≡ write_window_of book.now lg window.now out.old) × (out.new ≡ window_written book.now lg window.now out.old) }
{
    let size = SketchSize::of(lg)?;
    if (window.len() as u64) != size.k {
        return Err(Refusal::WrongLength);
    }
    let book = whole_book::<256>(book)?;
    let window = Window { bytes: window };
    coding::write(&WindowWriter { book, window }, out)
}
