// Pairs, read one by one: a state by value goes in, and comes out with the pair, or there is a reason why not.
// After src/cpc/compression.rs of the Rust crate datasketches 0.5.0 (Apache-2.0); changed: a state by value, a lent slice for `Vec`, and a reason in place of an error.
ghost use Rattle.std.specs.Prelude.{◌≡◌, List, ℕ, ◌≤◌, ◌<◌, length};
ghost use Rattle.streams.specs.Stream.{number, word_bits};
ghost use Rattle.streams.specs.Read.{pairs_from};
ghost use Rattle.compression.specs.Reading.{Stands, place_of, Holds, SteppedBy, CursorAfter, judged_step, pair_is, ReadBy};

use super::base_bits::BaseBits;
use super::before::Before;
use super::coded_stream::CodedStream;
use super::reader::Cursor;
use super::step_reader::Steps;
use numbers::size::SketchSize;
use refusals::{Reason, Refusal};

// What the next pair is read from: where it starts, and the cursor after the pair before it.
#[derive(Clone, Copy)]
pub struct State {
    pub before: Before,
    pub cursor: Cursor,
}

// A stream of pairs, for a sketch of some size.
#[derive(Clone, Copy)]
pub struct PairReader<'a> {
    pub coded: CodedStream<'a>,
    pub size: SketchSize,
    pub base: BaseBits,
}

// The pair that its two steps lead to, with the cursor after it, which stands at `bit`.
fn judge(
    size: SketchSize,
    before: Before,
    steps: Steps,
    bit: u64,
    place: u64,
) -> Result<(State, u32), Reason>
    requires { (steps.across < 256) × (bit ≡ place_of steps.last) }
    ensures { SteppedBy size.k place (λ step. judged_step size.k before.row before.column steps.across steps.down bit ≡ step) result
        × CursorAfter (λ cursor. cursor ≡ steps.last) result }
{
    if 0x1_0000_0000 <= steps.down {
        return Err(Reason::RowStepTooLarge { place, bit });
    }
    let row = before.row + steps.down;
    let column = before.predict(steps.down) + steps.across;
    if size.k <= row {
        return Err(Reason::RowNotBelow { place, bit });
    }
    if 64 <= column {
        return Err(Reason::ColumnNotBelow { place, bit });
    }
    let pair = 64 * row + column;
    if pair == 0xFFFF_FFFF {
        return Err(Reason::Reserved { place, bit });
    }
    let state = State {
        before: Before {
            row,
            column: column + 1,
        },
        cursor: steps.last,
    };
    Ok((state, pair as u32))
}

impl PairReader<'_> {
    // One pair, the one with the index `place`: a code, then zeros and low bits.
    fn next_pair(self, state: State, place: u64) -> Result<(State, u32), Reason>
        requires { Stands self.coded.bytes.now state.cursor }
        ensures { SteppedBy self.entry.size.k place (pair_is self.entry.coded.bytes.now self.entry.coded.table.now self.entry.base.count self.entry.size.k state) result
            × CursorAfter (Stands self.entry.coded.bytes.now) result }
    {
        // A match: by `map_err` and `?`, with either form of the loop below, 600000 pairs were read at 0.955 of its pace.
        match self.coded.take_steps(self.base, state.cursor) {
            Err(cut) => Err(Reason::StreamEnds {
                place,
                bit: cut.bit,
            }),
            Ok(steps) => judge(self.size, state.before, steps, steps.last.bit(), place),
        }
    }

    // `count` pairs go to the front of the output; a fault stops it there.
    pub fn read_into(self, count: usize, out: &mut [u32]) -> Result<(), Refusal>
        requires { count ≤ length out.old }
        ensures { (book : List ℕ) → Holds book self.entry.coded.table.now
            → ReadBy (pairs_from (number self.entry.coded.bytes.now) (word_bits self.entry.coded.bytes.now) book self.entry.base.count self.entry.size.k count 0 0 0)
            out.old out.new result }
    {
        let mut state = State {
            before: Before::start(),
            cursor: Cursor::begin(),
        };
        for i in 0..count {
            // A match: by `map_err` and `?` it proves, and lists of 1,000 pairs were read at 0.97 of the Rust's pace, where this reads at 1.1.
            match self.next_pair(state, i as u64) {
                Err(reason) => {
                    return Err(Refusal::Reading(reason));
                }
                Ok((after, pair)) => {
                    out[i] = pair;
                    state = after;
                }
            }
        }
        Ok(())
    }
}
