// The two steps of a pair, read: a column step, which is a code, and a row step, which is zeros and low bits.
// After src/cpc/compression.rs of the Rust crate datasketches 0.5.0 (Apache-2.0); changed: both steps are taken at once where the buffer holds enough.
ghost use Rattle.std.specs.Prelude.{◌≡◌, List, ℕ, ◌+◌, ◌/◌, ◌%◌, ◌≤◌, ◌<◌, ◌^◌, get_or};
ghost use Rattle.compression.specs.Reading.{Stands, place_of, StepsBy};

use super::base_bits::BaseBits;
use super::coded_stream::CodedStream;
use super::reader::{Cursor, Cut, zeros_in};

#[derive(Clone, Copy)]
pub struct Steps {
    // the column step
    pub across: u64,
    // the row step
    pub down: u64,
    // after both
    pub last: Cursor,
}

// Both steps out of a buffer that holds enough bits for them, past the whole pair by one shift; `rest` is what follows the code, and has fewer than eight zeros in front.
fn steps_at_once(cursor: Cursor, entry: u64, rest: u64, base: BaseBits) -> Steps
    requires held_bound { (20 + base.count ≤ cursor.held) × (cursor.held < 64) × (entry / 256 ≤ 12) }
    requires rest_value { (rest ≡ cursor.buffer / 2 ^ (entry / 256)) × (0 < rest % 256) }
    ensures { (stream table : List ℕ) → Stands stream cursor → entry ≡ get_or table (cursor.buffer % 4096) 0
        → StepsBy stream table base.count (place_of cursor) (Ok result) }
{
    let zeros = zeros_in(rest);
    let low = base.low(rest >> (zeros + 1));
    Steps {
        across: entry % 256,
        down: (u64::from(zeros) << base.count) + low,
        last: cursor.skip((entry / 256) as u32 + zeros + 1 + base.count),
    }
}

impl CodedStream<'_> {
    // One look after the other.
    fn careful_steps(self, base: BaseBits, cursor: Cursor) -> Result<Steps, Cut>
        requires { Stands self.bytes.now cursor }
        ensures { StepsBy self.entry.bytes.now self.entry.table.now base.count (place_of cursor) result }
    {
        let (across, after) = self.take_code(cursor)?;
        let (down, last) = self.take_row_step(after, base)?;
        Ok(Steps { across, down, last })
    }

    // The table's entry of the code in front.
    fn entry_in_front(self, buffer: u64) -> u64
        ensures { (result ≡ get_or self.entry.table.now (buffer % 4096) 0) × (result / 256 ≤ 12) }
    {
        u64::from(self.table[(buffer % 4096) as usize])
    }

    // Both steps: at once where the buffer has a code, a look for zeros and the low bits, and the look finds a one; that is so for nearly every pair.
    pub fn take_steps(self, base: BaseBits, cursor: Cursor) -> Result<Steps, Cut>
        requires { Stands self.bytes.now cursor }
        ensures { StepsBy self.entry.bytes.now self.entry.table.now base.count (place_of cursor) result }
    {
        let full = self.top_up(cursor);
        let entry = self.entry_in_front(full.buffer);
        let rest = full.buffer >> (entry / 256);
        if 20 + base.count <= full.held && rest % 256 != 0 {
            return Ok(steps_at_once(full, entry, rest, base));
        }
        self.careful_steps(base, full)
    }
}
