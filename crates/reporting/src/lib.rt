// The small program's decisions: text in, text out, on lent slices.
#![tactic(auto)]

ghost use Rattle.std.specs.Prelude.{◌≡◌};
ghost use Rattle.reporting.specs.Machine.{begun, held, taken_of};
ghost use Rattle.reporting.specs.Calls.{told_decision, decided_as, decide_of, laid, said_into, line_of};

mod deciding;
mod feeding;
mod lines;
mod matching;
mod saying;

use numbers::Flavor;
use refusals::Refusal;
use refusals::units::StreamLength;

// The digits of a decimal so far. A flag beside the number, since `take` and `decide` are promised for every value of it: as an Option it would leave out
// a number before the first digit.
#[derive(Clone, Copy)]
pub struct Digits {
    pub begun: bool,
    pub sofar: u32,
}

// What the next byte of a line belongs to.
#[derive(Clone, Copy)]
pub enum Field {
    // the name, of which so many letters stand; of a line without an index with the equals sign
    Name(u64),
    // a pair's index
    Index(Digits),
    Number(Digits),
}

// A text of which so many lines are read whole; lg_k and the number of pairs once their lines are. Numbers and no enum of states, and no fact that holds of
// each: `take` and `decide` are promised for every value of them.
#[derive(Clone, Copy)]
pub struct Reading {
    pub lines: u64,
    pub lg: u8,
    pub count: u32,
    pub field: Field,
}

// How far a text is read, or why it is refused.
pub type Progress = Result<Reading, Refusal>;

// The numbers of a list that was written, which are also its lines.
#[derive(Clone, Copy)]
pub struct Report {
    pub lg: u8,
    pub count: u32,
    pub flavor: Flavor,
    pub offset: u8,
    pub base: u8,
    pub length: StreamLength,
}

// The numbers of a list that was written, or why the text is refused.
pub type Decision = Result<Report, Refusal>;

// The length of a line, none where the last line is past. 5: the output is shorter than the line; 2: the stream is shorter than its words.
pub type LineAnswer = Result<Option<u64>, Refusal>;

// Before the first byte.
pub fn begin() -> Progress
    ensures { result ≡ begun }
{
    Ok(Reading {
        lines: 0,
        lg: 0,
        count: 0,
        field: Field::Name(0),
    })
}

// The next part of the text; a pair goes to its place.
pub fn take(progress: Progress, part: &[u8], pairs: &mut [u32]) -> Progress
    ensures { held result pairs.new ≡ taken_of progress part.now pairs.old }
{
    let mut after = progress;
    for byte in part {
        after = feeding::step(after, *byte, pairs);
    }
    after
}

// The text is whole: its list is written to the stream, and its numbers are told.
pub fn decide(progress: Progress, pairs: &[u32], stream: &mut [u8]) -> Decision
    ensures { decided_as (told_decision result) stream.new ≡ decide_of progress pairs.now stream.old }
{
    deciding::decide_read(progress?, pairs, stream)
}

// Line i of what is written, counted from 0, at the front of the output; the stream is the one that was decided on.
pub fn line(decision: Decision, stream: &[u8], i: u64, out: &mut [u8]) -> LineAnswer
    ensures { laid result out.new ≡ said_into (line_of decision stream.now i) out.old }
{
    match decision {
        Ok(report) => saying::say_report(report, stream, i, out),
        Err(why) => saying::say_refused(why, i, out),
    }
}
