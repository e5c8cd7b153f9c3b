// A window put into a stream.
// After src/cpc/compression.rs of the Rust crate datasketches 0.5.0 (Apache-2.0); changed: see lib.rt, and two codes go together.
ghost use Rattle.std.specs.Prelude.{◌≡◌, [], ◌∷◌, ◌+◌, ◌≤◌, get_or};
ghost use Rattle.books.specs.Steps.{Shape};
ghost use Rattle.streams.specs.Stream.{word_bits};
ghost use Rattle.streams.specs.Codes.{total};
ghost use Rattle.streams.specs.Written.{window_codes};
ghost use Rattle.compression.specs.Writing.{Lawful, bits_put, PutsBy, entry_code};

use super::book::Book;
use super::coding::Coding;
use super::window::Window;
use super::writer::Writer;
use refusals::units::Bits;

// How many zeros end a window.
const PAD: u64 = 11;

// A window to write, and the book to write it by.
#[derive(Clone, Copy)]
pub struct WindowWriter<'b, 'w> {
    pub book: Book<'b, 256>,
    pub window: Window<'w>,
}

// Two book codes together.
fn put_two(out: &mut [u8], w: Writer, first: u64, second: u64) -> Writer
    requires { Lawful out.old w × Shape first × Shape second × (bits_put w + total (entry_code first ∷ entry_code second ∷ []) ≤ word_bits out.old) }
    ensures { PutsBy out.old out.new w result (entry_code first ∷ entry_code second ∷ []) }
{
    let size = first / 4096;
    w.put(
        out,
        first % 4096 + ((second % 4096) << size),
        size + second / 4096,
    )
}

impl WindowWriter<'_, '_> {
    // The book's entry of a byte.
    fn entry(self, byte: u8) -> u64
        ensures { (result ≡ get_or self.entry.book.entries.now byte 0) × Shape result }
    {
        u64::from(self.book.entries[usize::from(byte)])
    }
}

impl Coding for WindowWriter<'_, '_> {
    ghost codes = { λ w. window_codes w.book.entries.now w.window.bytes.now };

    ghost padding = { λ w. 11 };

    // Codes of twelve bits.
    fn enough(&self) -> Bits {
        Bits((self.window.bytes.len() as u64) * 12 + PAD)
    }

    fn count(&self) -> u64 {
        let writer = *self;
        let bytes = writer.window.bytes;
        let mut sum: u64 = 0;
        for &byte in bytes {
            sum += writer.entry(byte) / 4096;
        }
        sum
    }

    fn pad(&self) -> u64 {
        PAD
    }

    // Two at a time: a window has an even number of bytes.
    fn put_all(&self, out: &mut [u8], w: Writer) -> Writer {
        let writer = *self;
        let (twos, _) = writer.window.bytes.as_chunks::<2>();
        let mut at = w;
        for two in twos {
            at = put_two(out, at, writer.entry(two[0]), writer.entry(two[1]));
        }
        at
    }
}
