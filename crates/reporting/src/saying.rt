// The lines of a decision, one at a time.
ghost use Rattle.std.specs.Prelude.{◌≡◌, ◌*◌, ◌/◌, ◌<◌, length};
ghost use Rattle.streams.specs.Stream.{number, bits_at};
ghost use Rattle.reporting.specs.Lines.{line};
ghost use Rattle.reporting.specs.Report.{flavor_name, flavor_word};
ghost use Rattle.reporting.specs.Calls.{laid, line_into, said_into, nth, report_head, word_said, report_said, refused_said};

use crate::{LineAnswer, Report, lines};
use numbers::Flavor;
use refusals::{Numbered, Refusal};

// The 32-bit little-endian word at an index.
fn word_at(stream: &[u8], index: u64) -> u64
    requires { index < length stream.now / 4 }
    ensures { result ≡ bits_at (number stream.now) (32 * index) 32 }
{
    let i = (index as usize) * 4;
    let bytes = [stream[i], stream[i + 1], stream[i + 2], stream[i + 3]];
    u64::from(u32::from_le_bytes(bytes))
}

#[tactic(auto, using(laws::proofs::Choices::choices))]
fn say_word(stream: &[u8], index: u64, out: &mut [u8]) -> LineAnswer
    ensures { laid result out.new ≡ said_into (word_said stream.now index) out.old }
{
    if index < (stream.len() / 4) as u64 {
        return lines::put_word(index, word_at(stream, index), out);
    }
    Err(Refusal::WrongLength)
}

fn word_of(flavor: Flavor) -> &'static [u8]
    ensures { result.now ≡ flavor_word flavor }
{
    match flavor {
        Flavor::Empty => b"empty",
        Flavor::Sparse => b"sparse",
        Flavor::Hybrid => b"hybrid",
        Flavor::Pinned => b"pinned",
        Flavor::Sliding => b"sliding",
    }
}

// The lines before the words.
#[tactic(auto, unfolding(crate::specs::Calls::report_head))]
fn say_head(report: Report, i: u64, out: &mut [u8]) -> LineAnswer
    requires { i < 7 }
    ensures { laid result out.new ≡ said_into (nth (report_head report) i) out.old }
{
    match i {
        0 => lines::put_number(b"lg_k", u64::from(report.lg), out),
        1 => lines::put_number(b"pairs", u64::from(report.count), out),
        2 => lines::put_line(b"flavor", word_of(report.flavor), out),
        3 => lines::put_number(b"offset", u64::from(report.offset), out),
        4 => lines::put_number(b"base_bits", u64::from(report.base), out),
        5 => lines::put_number(b"bits", report.length.bits.0, out),
        _ => lines::put_number(b"words", report.length.words.0, out),
    }
}

#[tactic(auto, using(laws::proofs::Choices::choices), unfolding(crate::specs::Calls::report_said))]
pub fn say_report(report: Report, stream: &[u8], i: u64, out: &mut [u8]) -> LineAnswer
    ensures { laid result out.new ≡ said_into (report_said report stream.now i) out.old }
{
    if i < 7 {
        return say_head(report, i, out);
    }
    if i - 7 < report.length.words.0 {
        return say_word(stream, i - 7, out);
    }
    Ok(None)
}

// A refusal is a single line.
pub fn say_refused(why: Refusal, i: u64, out: &mut [u8]) -> LineAnswer
    ensures { laid result out.new ≡ said_into (refused_said why i) out.old }
{
    if 0 < i {
        return Ok(None);
    }
    let numbered = Numbered::from(why);
    lines::put_number(b"refused", u64::from(numbered.number), out)
}
