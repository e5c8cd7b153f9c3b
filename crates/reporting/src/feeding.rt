// Byte after byte, from line to line.
ghost use Rattle.std.specs.Prelude.{false, ◌≡◌, ◌^◌, ◌<◌, ◌≤◌, length};
ghost use Rattle.reporting.specs.Machine.{done, held, next_line, lg_read, count_read, line_read, reading_step, step_of};

use crate::matching::Move;
use crate::{Field, Progress, Reading, matching};
use refusals::Refusal;

// All the lines are read.
#[tactic(auto, using(laws::proofs::Choices::choices))]
pub fn is_done(reading: Reading) -> bool
    ensures { result ≡ done reading }
{
    if reading.lines < 2 {
        return false;
    }
    u64::from(reading.count) <= reading.lines - 2
}

fn next_line(reading: Reading, lg: u8, count: u32) -> Progress
    requires { reading.lines < 2 ^ 40 }
    ensures { result ≡ next_line reading lg count }
{
    Ok(Reading {
        lines: reading.lines + 1,
        lg,
        count,
        field: Field::Name(0),
    })
}

#[tactic(auto, using(laws::proofs::Choices::choices))]
fn lg_read(reading: Reading, lg: u32) -> Progress
    requires { reading.lines < 2 ^ 40 }
    ensures { result ≡ lg_read reading lg }
{
    if lg < 4 || 12 < lg {
        return Err(Refusal::LgOutside);
    }
    next_line(reading, lg as u8, reading.count)
}

#[tactic(auto, using(laws::proofs::Choices::choices))]
fn count_read(room: usize, reading: Reading, count: u32) -> Progress
    requires { reading.lines < 2 ^ 40 }
    ensures { result ≡ count_read room reading count }
{
    if 4096 < count || room < count as usize {
        return Err(Refusal::NoRoom);
    }
    next_line(reading, reading.lg, count)
}

// A line is whole, and says a number. A pair is stored.
#[tactic(auto, using(laws::proofs::Choices::choices), unfolding(crate::specs::Machine::line_read))]
fn line_read(reading: Reading, number: u32, pairs: &mut [u32]) -> Progress
    requires { (reading.count ≤ length pairs.old) × (done reading ≡ false) }
    ensures { held result pairs.new ≡ line_read reading number pairs.old }
{
    match reading.lines {
        0 => lg_read(reading, number),
        1 => count_read(pairs.len(), reading, number),
        lines => {
            pairs[(lines - 2) as usize] = number;
            next_line(reading, reading.lg, reading.count)
        }
    }
}

#[tactic(auto, using(laws::proofs::Choices::choices), unfolding(crate::specs::Machine::reading_step))]
fn step_reading(reading: Reading, byte: u8, pairs: &mut [u32]) -> Progress
    ensures { held result pairs.new ≡ reading_step reading byte pairs.old }
{
    if pairs.len() < reading.count as usize {
        return Err(Refusal::NoRoom);
    }
    if is_done(reading) {
        return Err(Refusal::NotLawful);
    }
    match matching::follow(reading.lines, reading.field, byte) {
        None => Err(Refusal::NotLawful),
        Some(Move::To(field)) => Ok(Reading { field, ..reading }),
        Some(Move::Ends(number)) => line_read(reading, number, pairs),
    }
}

pub fn step(progress: Progress, byte: u8, pairs: &mut [u32]) -> Progress
    ensures { held result pairs.new ≡ step_of progress byte pairs.old }
{
    step_reading(progress?, byte, pairs)
}
