// Pairs put into a stream.
// After src/cpc/compression.rs of the Rust crate datasketches 0.5.0 (Apache-2.0); changed: see lib.rt.
ghost use Rattle.std.specs.Prelude.{◌≡◌, length};
ghost use Rattle.numbers.specs.Numbers.{base_bits_at};
ghost use Rattle.streams.specs.Written.{pairs_codes, pairs_pad};

use super::base_bits::BaseBits;
use super::before::Before;
use super::book::Book;
use super::coding::Coding;
use super::pair_codes::PairCodes;
use super::pair_list::PairList;
use super::writer::Writer;
use refusals::units::Bits;

// A list to write, and the book to write it by.
#[derive(Clone, Copy)]
pub struct PairWriter<'b, 'l> {
    pub book: Book<'b, 65>,
    pub list: PairList<'l>,
    pub base: BaseBits,
    ghost based: { base.count ≡ base_bits_at list.size.k (length list.pairs.now) },
}

impl PairWriter<'_, '_> {
    pub fn new<'b, 'l>(book: Book<'b, 65>, list: PairList<'l>) -> PairWriter<'b, 'l>
        ensures { (result.book.entries.now ≡ book.entry.entries.now) × (result.list.pairs.now ≡ list.entry.pairs.now) × (result.list.size ≡ list.entry.size) }
    {
        PairWriter {
            book,
            list,
            base: BaseBits::of(list.size, list.pairs.len() as u32),
        }
    }
}

impl Coding for PairWriter<'_, '_> {
    ghost codes = { λ w. pairs_codes w.book.entries.now w.list.size.k w.list.pairs.now };

    ghost padding = { λ w. pairs_pad w.list.size.k (length w.list.pairs.now) };

    // What so many pairs are granted.
    fn enough(&self) -> Bits {
        let granted = self.list.size.most_bits(self.list.pairs.len() as u32);
        granted.unwrap().bits
    }

    fn count(&self) -> u64 {
        let PairWriter { book, list, base } = *self;
        let mut sum: u64 = 0;
        let mut before = Before::start();
        for &pair in list.pairs {
            sum += PairCodes::of(book, base, before, pair).bits();
            before = Before::after(pair);
        }
        sum
    }

    fn pad(&self) -> u64 {
        if self.list.pairs.is_empty() {
            return 0;
        }
        10u64.saturating_sub(u64::from(self.base.count))
    }

    fn put_all(&self, out: &mut [u8], w: Writer) -> Writer {
        let PairWriter { book, list, base } = *self;
        let mut at = w;
        let mut before = Before::start();
        for &pair in list.pairs {
            at = PairCodes::of(book, base, before, pair).put(out, at);
            before = Before::after(pair);
        }
        at
    }
}
