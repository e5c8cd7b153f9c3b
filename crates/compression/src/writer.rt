// The word-buffered bit writer: a cursor by value beside the lent output.
// After src/cpc/compression.rs of the Rust crate datasketches 0.5.0 (Apache-2.0); changed: see lib.rt.
ghost use Rattle.std.specs.Prelude.{◌≡◌, ◌++◌, ◌+◌, ◌≤◌, ◌<◌, ◌^◌, length, take, drop};
ghost use Rattle.streams.specs.Stream.{word_bits};
ghost use Rattle.compression.specs.Writing.{four_bytes, Lawful, bits_put, PutBy, FinishedBy, ClosedBy};

use refusals::units::{Bits, StreamLength, words_for};

// What makes it `Lawful` is its place in the output: a writer that held the output would say in each `ensures` that it is the same output, which is no plainer.
#[derive(Clone, Copy)]
pub struct Writer {
    // bits that are put and not yet written, fewer than a word's
    pub buffer: u64,
    // how many they are
    pub held: u64,
    // how many bytes are written
    pub next: usize,
}

// The 32 low bits of a number, as four bytes at i.
fn put_word(out: &mut [u8], i: usize, word: u64)
    requires { i + 4 ≤ length out.old }
    ensures { out.new ≡ take i out.old ++ four_bytes word ++ drop (i + 4) out.old }
{
    let low = (word % 0x1_0000_0000) as u32;
    out[i..i + 4].copy_from_slice(&low.to_le_bytes());
}

impl Writer {
    pub fn new() -> Writer
        ensures { (result.held ≡ 0) × (result.next ≡ 0) × (result.buffer ≡ 0) }
    {
        Writer {
            buffer: 0,
            held: 0,
            next: 0,
        }
    }

    // A value of `count` bits after those already put.
    pub fn put(self, out: &mut [u8], value: u64, count: u64) -> Writer
        requires { Lawful out.old self × (value < 2 ^ count) × (count ≤ 32) × (bits_put self + count ≤ word_bits out.old) }
        ensures { PutBy out.old out.new self result value count }
    {
        let held = self.held;
        let next = self.next;
        let buffer = self.buffer | (value << held);
        let full = held + count;
        if full < 32 {
            return Writer {
                buffer,
                held: full,
                next,
            };
        }
        put_word(out, next, buffer);
        Writer {
            buffer: buffer >> 32,
            held: full - 32,
            next: next + 4,
        }
    }

    // So many zeros and a one, by sixteen zeros at a time.
    pub fn put_unary(self, out: &mut [u8], zeros: u64) -> Writer
        requires { Lawful out.old self × (bits_put self + (zeros + 1) ≤ word_bits out.old) }
        ensures { PutBy out.old out.new self result (2 ^ zeros) (zeros + 1) }
    {
        // `left` is no index: with `for _ in 0..zeros / 16` the loop over pairs needs more registers, and ran at 0.87 of its pace
        let mut left = zeros;
        let mut at = self;
        while 16 <= left {
            at = at.put(out, 0, 16);
            left -= 16;
        }
        at.put(out, 1u64 << left, left + 1)
    }

    // The last word, with zeros above what the buffer holds: how many bytes are written.
    fn finish(self, out: &mut [u8]) -> usize
        requires { Lawful out.old self × (bits_put self ≤ word_bits out.old) }
        ensures { FinishedBy out.old out.new self result }
    {
        let next = self.next;
        if self.held == 0 {
            return next;
        }
        put_word(out, next, self.buffer);
        next + 4
    }

    // The bits put so far.
    fn bits(self) -> Bits
        requires { bits_put self < 2 ^ 60 }
        ensures { result.0 ≡ bits_put self }
    {
        Bits((self.next as u64) * 8 + self.held)
    }

    // The pad and the last word: the bits, with pad, and the words.
    pub fn close(self, out: &mut [u8], pad: u64) -> StreamLength
        requires { Lawful out.old self × (pad ≤ 32) × (bits_put self + pad ≤ word_bits out.old) × (bits_put self + pad < 2 ^ 60) }
        ensures { ClosedBy out.old out.new self pad result }
    {
        let padded = self.put(out, 0, pad);
        padded.finish(out);
        let bits = padded.bits();
        StreamLength {
            bits,
            words: words_for(bits),
        }
    }
}
