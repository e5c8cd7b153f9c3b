// A file of stored cases: read whole, then line by line.
ghost use Rattle.std.specs.Prelude.{◌≤◌, length, IfSome};

use super::calls;
use std::fs::File;
use std::io;
use std::io::Read;
use std::rt::Files;
use stored_cases::verdicts::{NoVerdict, Verdict};

// The most bytes of a file that is read.
const LONGEST: usize = 262144;

// How many cases ran, and how many of them agreed.
#[derive(Clone, Copy)]
struct Tally {
    ran: usize,
    agreed: usize,
}

impl Tally {
    // With one case more. The counts stop at the most that they hold, but no text has so many lines.
    fn with(self, verdict: Verdict) -> Tally {
        Tally {
            ran: self.ran.saturating_add(1),
            agreed: self
                .agreed
                .saturating_add(usize::from(verdict == Verdict::Agrees)),
        }
    }
}

// Whether there is nothing more to read.
fn is_at_end<F: Read>(file: &mut F) -> bool {
    let mut next = [0; 1];
    matches!(file.read(&mut next), Ok(0))
}

// Reads until the text is full, the file ends or a read fails, and answers how many bytes it put at the start of the text.
fn read_full<F: Read>(file: &mut F, text: &mut [u8]) -> usize
    ensures { result ≤ length text.new }
{
    let mut done = 0;
    // A `while`, since a turn takes as many bytes as a read gives.
    while done < text.len() {
        match file.read(&mut text[done..]) {
            Ok(0) | Err(_) => break,
            Ok(more) => done += more,
        }
    }
    done
}

// Puts the file at the start of `text`, and answers how long it is. `None`: it cannot be read, or is longer. Where a read failed, what was read is the whole,
// if nothing comes behind it.
fn load<R: Files>(rt: &R, name: &str, text: &mut [u8]) -> Option<usize>
    ensures { IfSome result (λ end. end ≤ length text.new) }
{
    let mut file = File::open(rt, name).ok()?;
    let end = read_full(&mut file, text);
    is_at_end(&mut file).then_some(end)
}

// What comes of the line, where it is a case.
fn replay_line<R: Print>(
    rt: &R,
    name: &str,
    number: usize,
    line: &[u8],
) -> io::Result<Option<Verdict>> {
    match calls::run(line) {
        Ok(Verdict::Agrees) => Ok(Some(Verdict::Agrees)),
        Ok(Verdict::Disagrees) => {
            println!(rt; "{name} line {number}: disagrees")?;
            Ok(Some(Verdict::Disagrees))
        }
        Err(NoVerdict::NotACase) => {
            println!(rt; "{name} line {number}: not a case")?;
            Ok(None)
        }
    }
}

fn is_comment(line: &[u8]) -> bool {
    line.is_empty() || line.starts_with(b"#")
}

fn replay_lines<R: Print>(rt: &R, name: &str, text: &[u8]) -> io::Result<Tally> {
    let mut tally = Tally { ran: 0, agreed: 0 };
    for (place, line) in text.split(|byte| *byte == b'\n').enumerate() {
        if !is_comment(line) {
            if let Some(verdict) = replay_line(rt, name, place + 1, line)? {
                tally = tally.with(verdict);
            }
        }
    }
    Ok(tally)
}

pub fn replay<R: Files + Print>(rt: &R, name: &str) -> io::Result<()> {
    let mut text = [0; LONGEST];
    let Some(end) = load(rt, name, &mut text) else {
        return println!(rt; "{name}: cannot be read whole, so no case was run");
    };
    let Tally { ran, agreed } = replay_lines(rt, name, &text[..end])?;
    println!(rt; "{name}: {agreed} of {ran} cases agree")
}
