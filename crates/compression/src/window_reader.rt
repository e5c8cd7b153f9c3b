// A window, read: a code for each byte.
// After src/cpc/compression.rs of the Rust crate datasketches 0.5.0 (Apache-2.0); changed: a lent slice for `Vec`, and a reason in place of an error.
ghost use Rattle.std.specs.Prelude.{List, ℕ, length};
ghost use Rattle.streams.specs.Stream.{number, word_bits};
ghost use Rattle.streams.specs.Read.{bytes_from};
ghost use Rattle.compression.specs.Reading.{Holds, ReadBy};

use super::coded_stream::CodedStream;
use super::reader::Cursor;
use refusals::{Reason, Refusal};

// As many bytes as the window has; a fault stops it there. Not one with the loop over pairs: item, state and fault differ, so only the loop's head would be shared, which is no plainer.
pub fn read_into(coded: CodedStream, window: &mut [u8]) -> Result<(), Refusal>
    ensures { (book : List ℕ) → Holds book coded.entry.table.now
        → ReadBy (bytes_from (number coded.entry.bytes.now) (word_bits coded.entry.bytes.now) book (length window.old) 0) window.old window.new result }
{
    let mut cursor = Cursor::begin();
    for i in 0..window.len() {
        // A match, so that a fault has a branch of its own.
        match coded.take_code(cursor) {
            Err(cut) => {
                return Err(Refusal::Reading(Reason::StreamEnds {
                    place: i as u64,
                    bit: cut.bit,
                }));
            }
            Ok((byte, after)) => {
                window[i] = byte as u8;
                cursor = after;
            }
        }
    }
    Ok(())
}
