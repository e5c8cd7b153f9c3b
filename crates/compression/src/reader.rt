// The word-buffered bit reader: a cursor by value beside the stream. Each read answers the value and the cursor after it, or the first bit of the look that failed.
// After src/cpc/compression.rs of the Rust crate datasketches 0.5.0 (Apache-2.0); changed: a cursor by value in place of a `BitReader` that holds the slice.
ghost use Rattle.std.specs.Prelude.{◌≡◌, List, ℕ, ◌+◌, ◌*◌, ◌%◌, ◌≤◌, ◌<◌, ◌^◌, length};
ghost use Rattle.std.specs.Int.Count.{count_trailing_zeros};
ghost use Rattle.streams.specs.Stream.{number, word_bits, bits_at};
ghost use Rattle.streams.specs.Looks.{field_at, zeros_at, row_step_at};
ghost use Rattle.compression.specs.Reading.{Stands, place_of, FilledBy, SeenBy, TakenBy, code_is};

use super::base_bits::BaseBits;
use super::coded_stream::CodedStream;

// That it `Stands` is a fact of the stream too: a reader that held both would say in each `ensures` that its stream is the same, which is no plainer.
#[derive(Clone, Copy)]
pub struct Cursor {
    pub buffer: u64,
    pub held: u32,
    pub next: usize,
}

// A look that failed, as the stream ends before its last bit: its first.
#[derive(Clone, Copy)]
pub struct Cut {
    pub bit: u64,
}

impl Cursor {
    // At the first bit.
    pub fn begin() -> Cursor
        ensures { (result.held ≡ 0) × (result.next ≡ 0) × (result.buffer ≡ 0) }
    {
        Cursor {
            buffer: 0,
            held: 0,
            next: 0,
        }
    }

    // The bit at which the cursor stands.
    pub fn bit(self) -> u64
        requires { (self.next ≤ 2 ^ 30) × (self.held ≤ 8 * self.next) }
        ensures { result ≡ place_of self }
    {
        (self.next * 8) as u64 - u64::from(self.held)
    }

    // Past `count` bits that the buffer holds.
    pub fn skip(self, count: u32) -> Cursor
        requires { (count ≤ self.held) × (count < 64) }
        ensures { (s : List ℕ) → Stands s self → Stands s result × (place_of result ≡ place_of self + count) }
    {
        Cursor {
            buffer: self.buffer >> count,
            held: self.held - count,
            next: self.next,
        }
    }
}

// The 32-bit little-endian word at a byte.
fn word_at(stream: &[u8], i: usize) -> u64
    requires { i + 4 ≤ length stream.now }
    ensures { result ≡ bits_at (number stream.now) (8 * i) 32 }
{
    let bytes = [stream[i], stream[i + 1], stream[i + 2], stream[i + 3]];
    u64::from(u32::from_le_bytes(bytes))
}

// The zeros before the lowest one, where that is among the low eight bits.
pub fn zeros_in(bits: u64) -> u32
    requires { 0 < bits % 256 }
    ensures { (result ≡ count_trailing_zeros 8 bits) × (result < 8) }
{
    bits.trailing_zeros()
}

impl CodedStream<'_> {
    // At least `needed` bits in the buffer, by one more word where it has fewer; none where the stream ends before them.
    fn fill(self, cursor: Cursor, needed: u32) -> Option<Cursor>
        requires { Stands self.bytes.now cursor × (needed ≤ 32) }
        ensures { FilledBy self.entry.bytes.now cursor needed result }
    {
        let held = cursor.held;
        let next = cursor.next;
        if needed <= held {
            return Some(cursor);
        }
        if self.bytes.len() < next + 4 {
            return None;
        }
        let word = word_at(self.bytes, next);
        Some(Cursor {
            buffer: cursor.buffer | (word << held),
            held: held + 32,
            next: next + 4,
        })
    }

    // A word's bits or more in the buffer, unless the stream ends before them: one test serves the looks that follow.
    pub fn top_up(self, cursor: Cursor) -> Cursor
        requires { Stands self.bytes.now cursor }
        ensures { Stands self.entry.bytes.now result × (place_of result ≡ place_of cursor) }
    {
        self.fill(cursor, 32).unwrap_or(cursor)
    }

    // A look at the next `count` bits, which stay to be read.
    fn look(self, cursor: Cursor, count: u32) -> Result<(u64, Cursor), Cut>
        requires { Stands self.bytes.now cursor × (count ≤ 26) }
        ensures { SeenBy self.entry.bytes.now cursor count result }
    {
        match self.fill(cursor, count) {
            Some(full) => Ok((full.buffer & ((1u64 << count) - 1), full)),
            None => Err(Cut { bit: cursor.bit() }),
        }
    }

    // `count` bits: their number.
    pub fn take_bits(self, cursor: Cursor, count: u32) -> Result<(u64, Cursor), Cut>
        requires { Stands self.bytes.now cursor × (count ≤ 26) }
        ensures { TakenBy self.entry.bytes.now
            (λ looked. field_at (number self.entry.bytes.now) (word_bits self.entry.bytes.now) count (place_of cursor) ≡ looked) (2 ^ count) result }
    {
        let (bits, full) = self.look(cursor, count)?;
        Ok((bits, full.skip(count)))
    }

    // A code of the book: the symbol, by a look at 12 bits.
    pub fn take_code(self, cursor: Cursor) -> Result<(u64, Cursor), Cut>
        requires { Stands self.bytes.now cursor }
        ensures { TakenBy self.entry.bytes.now (code_is self.entry.bytes.now self.entry.table.now (place_of cursor)) 256 result }
    {
        let (bits, full) = self.look(cursor, 12)?;
        let entry = u64::from(self.table[bits as usize]);
        Ok((entry % 256, full.skip((entry / 256) as u32)))
    }

    // The zeros before the next one, eight bits at a look; the cursor after it stands past that one.
    pub fn take_zeros(self, cursor: Cursor) -> Result<(u64, Cursor), Cut>
        requires { Stands self.bytes.now cursor }
        ensures { TakenBy self.entry.bytes.now
            (λ looked. zeros_at (number self.entry.bytes.now) (word_bits self.entry.bytes.now) (place_of cursor) ≡ looked) (2 ^ 34) result }
    {
        let mut zeros: u64 = 0;
        let mut at = cursor;
        // No `for`: how many looks there are is known only when the stream has been read.
        loop {
            let (bits, full) = self.look(at, 8)?;
            if bits != 0 {
                let last = zeros_in(bits);
                return Ok((zeros + u64::from(last), full.skip(last + 1)));
            }
            zeros += 8;
            at = full.skip(8);
        }
    }

    // A row step: zeros and a one, then the low bits.
    pub fn take_row_step(self, cursor: Cursor, base: BaseBits) -> Result<(u64, Cursor), Cut>
        requires { Stands self.bytes.now cursor }
        ensures { TakenBy self.entry.bytes.now
            (λ looked. row_step_at (number self.entry.bytes.now) (word_bits self.entry.bytes.now) base.count (place_of cursor) ≡ looked) (2 ^ 64) result }
    {
        let (zeros, after) = self.take_zeros(cursor)?;
        let (low, last) = self.take_bits(after, base.count)?;
        Ok(((zeros << base.count) + low, last))
    }
}
