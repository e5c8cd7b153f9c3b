// The codes of one pair, counted and put.
// After src/cpc/compression.rs of the Rust crate datasketches 0.5.0 (Apache-2.0); changed: see lib.rt, and one pair's codes go together where they fit.
ghost use Rattle.std.specs.Prelude.{◌≡◌, ◌+◌, ◌-◌, ◌/◌, ◌%◌, ◌^◌, ◌≤◌, ◌<◌};
ghost use Rattle.books.specs.Book.{length_in};
ghost use Rattle.streams.specs.Stream.{word_bits};
ghost use Rattle.streams.specs.Codes.{total, pack};
ghost use Rattle.streams.specs.Written.{predicted, pair_codes};
ghost use Rattle.compression.specs.Writing.{Lawful, bits_put, PutsBy, part_codes};

use super::base_bits::BaseBits;
use super::before::Before;
use super::book::Book;
use super::pair_codes::PairCodes;
use super::writer::Writer;

impl PairCodes {
    // The codes of a pair that follows what is before it.
    pub fn of(book: Book<'_, 65>, base: BaseBits, before: Before, pair: u32) -> PairCodes
        requires { (before.row ≤ pair / 64) × (predicted (pair / 64 - before.row) before.column ≤ pair % 64) }
        ensures { part_codes result.entry result.zeros result.base.count result.low ≡ pair_codes book.entry.entries.now base.count before.row before.column pair }
    {
        let pair = u64::from(pair);
        let step = pair / 64 - before.row;
        let x = (pair % 64 - before.predict(step)) as usize;
        PairCodes {
            entry: u64::from(book.entries[x]),
            zeros: step >> base.count,
            low: base.low(step),
            base,
        }
    }

    pub fn bits(self) -> u64
        ensures same { result ≡ total (part_codes self.entry self.zeros self.base.count self.low) }
        ensures parts { result ≡ length_in self.entry + self.zeros + 1 + self.base.count }
    {
        self.entry / 4096 + self.zeros + 1 + u64::from(self.base.count)
    }

    // All as one value, where they are few bits: the low bits stand above the one, and the one above the zeros and the codeword.
    fn joined(self) -> u64
        requires { self.zeros + self.base.count < 20 }
        ensures { (result ≡ pack (part_codes self.entry self.zeros self.base.count self.low))
            × (result < 2 ^ (length_in self.entry + self.zeros + 1 + self.base.count)) }
    {
        self.entry % 4096 + ((self.low * 2 + 1) << (self.entry / 4096 + self.zeros))
    }

    // One after the other.
    fn put_apart(self, out: &mut [u8], w: Writer) -> Writer
        requires { Lawful out.old w × (bits_put w + total (part_codes self.entry self.zeros self.base.count self.low) ≤ word_bits out.old) }
        ensures { PutsBy out.old out.new w result (part_codes self.entry self.zeros self.base.count self.low) }
    {
        w.put(out, self.entry % 4096, self.entry / 4096)
            .put_unary(out, self.zeros)
            .put(out, self.low, u64::from(self.base.count))
    }

    pub fn put(self, out: &mut [u8], w: Writer) -> Writer
        requires { Lawful out.old w × (bits_put w + total (part_codes self.entry self.zeros self.base.count self.low) ≤ word_bits out.old) }
        ensures { PutsBy out.old out.new w result (part_codes self.entry self.zeros self.base.count self.low) }
    {
        if 20 <= self.zeros + u64::from(self.base.count) {
            return self.put_apart(out, w);
        }
        w.put(out, self.joined(), self.bits())
    }
}
