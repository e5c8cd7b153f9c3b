// What a whole text is answered: the writer, then the numbers.
ghost use Rattle.std.specs.Prelude.{◌≡◌, ◌≤◌, length};
ghost use Rattle.reporting.specs.Calls.{told_decision, decided_as, numbers_of, written_of, read_decided};

use crate::{Decision, Reading, Report, feeding};
use numbers::size::SketchSize;
use refusals::Refusal;
use refusals::units::StreamLength;

// The numbers of a list of so many pairs, which are the coupons too.
#[tactic(auto, using(laws::proofs::Choices::choices), unfolding(numbers::specs::Calls::offset_of, numbers::specs::Calls::base_bits_of))]
fn number(lg: u8, count: u32, length: StreamLength) -> Decision
    ensures { told_decision result ≡ numbers_of lg count length.bits.0 length.words.0 }
{
    let size = SketchSize::of(lg)?;
    Ok(Report {
        lg,
        count,
        flavor: size.flavor(count),
        offset: size.offset(count)?,
        base: size.base_bits(count),
        length,
    })
}

fn write(lg: u8, pairs: &[u32], stream: &mut [u8]) -> Decision
    requires { length pairs.now ≤ 4294967295 }
    ensures { decided_as (told_decision result) stream.new ≡ written_of lg pairs.now stream.old }
{
    let book = practice::pair_book();
    let length = compression::write_pairs(&book, lg, pairs, stream)?;
    number(lg, pairs.len() as u32, length)
}

#[tactic(auto, using(laws::proofs::Choices::choices), unfolding(crate::specs::Calls::read_decided))]
pub fn decide_read(reading: Reading, pairs: &[u32], stream: &mut [u8]) -> Decision
    ensures { decided_as (told_decision result) stream.new ≡ read_decided reading pairs.now stream.old }
{
    let count = reading.count as usize;
    if pairs.len() < count {
        return Err(Refusal::NoRoom);
    }
    if !feeding::is_done(reading) {
        return Err(Refusal::NotLawful);
    }
    write(reading.lg, &pairs[..count], stream)
}
