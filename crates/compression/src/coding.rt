// What is written as codes and a pad, a list of pairs or a window: whether there is room for it, and the write.
ghost use Rattle.std.specs.Prelude.{◌≡◌, List, ℕ, ◌+◌, ◌^◌, ◌≤◌, ◌<◌, leb};
ghost use Rattle.refusals.specs.Units.{words_for};
ghost use Rattle.streams.specs.Stream.{word_bits};
ghost use Rattle.streams.specs.Codes.{Code, total};
ghost use Rattle.compression.specs.Writing.{Lawful, bits_put, PutsBy, LastBy};

use super::writer::Writer;
use refusals::Refusal;
use refusals::units::{Bits, StreamLength, Words, words_for};

pub trait Coding {
    ghost codes: { Self → List Code };

    ghost padding: { Self → ℕ };

    // Bits that are enough, known without counting.
    fn enough(&self) -> Bits
        ensures { (total (codes self.now) + padding self.now ≤ result.0) × (result.0 < 2 ^ 60) };

    // The bits of all codes.
    fn count(&self) -> u64
        ensures { result ≡ total (codes self.now) };

    // How many zeros follow the codes.
    fn pad(&self) -> u64
        ensures { (result ≡ padding self.now) × (result ≤ 32) };

    // All codes, one after the other.
    fn put_all(&self, out: &mut [u8], w: Writer) -> Writer
        requires { Lawful out.old w × (bits_put w + total (codes self.now) ≤ word_bits out.old) }
        ensures { PutsBy out.old out.new w result (codes self.now) };
}

// Do so many bits fit into so many words?
fn fits(bits: Bits, room: Words) -> bool
    ensures { result ≡ leb (words_for bits.0) room.0 }
{
    words_for(bits).0 <= room.0
}

// Is there room for the codes and the pad? Where there is room for what is enough, nothing is counted.
fn has_room<C: Coding>(coding: &C, room: Words) -> bool
    ensures fits { result ≡ leb (words_for (total (C.codes coding.now) + C.padding coding.now)) room.0 }
    ensures few { total (C.codes coding.now) + C.padding coding.now < 2 ^ 60 }
{
    if fits(coding.enough(), room) {
        return true;
    }
    fits(Bits(coding.count() + coding.pad()), room)
}

// The codes, the pad and the last word, as whole words at the front of the output: refusal 5, or they are written.
pub fn write<C: Coding>(coding: &C, out: &mut [u8]) -> Result<StreamLength, Refusal>
    ensures { LastBy (C.codes coding.now) (total (C.codes coding.now) + C.padding coding.now) out.old out.new result }
{
    if !has_room(coding, Words((out.len() / 4) as u64)) {
        return Err(Refusal::NoRoom);
    }
    let listed = coding.put_all(out, Writer::new());
    Ok(listed.close(out, coding.pad()))
}
