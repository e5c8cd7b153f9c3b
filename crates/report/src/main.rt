// The small program: standard input is read to its end, part by part, and what is decided of the whole is written line by line. All judging is `reporting`'s.
#![tactic(auto)]

use refusals::Refusal;
use reporting::{Decision, Progress};
use std::io;
use std::io::{Read, Write};

// A text that cannot be read to its end is refused. A proved loop has to end, and nothing says that an input does: the turns are counted up to a number
// that no run reaches.
fn read_text(rt: &HostRuntime, pairs: &mut [u32]) -> io::Result<Progress> {
    let mut part = [0u8; 4096];
    let mut progress = reporting::begin();
    for _ in 0..u64::MAX {
        match rt.stdin().read(&mut part) {
            Ok(0) => {
                return Ok(progress);
            }
            Ok(length) => {
                progress = reporting::take(progress, &part[..length], pairs);
            }
            Err(error) => {
                eprintln!(rt; "standard input: {error}")?;
                return Ok(Err(Refusal::NotLawful));
            }
        }
    }
    Ok(Err(Refusal::NotLawful))
}

// A line past the last, or one that there is no room for, is not written: nothing comes after it.
fn write_lines(rt: &HostRuntime, decision: Decision, stream: &[u8]) -> io::Result<()> {
    let mut out = [0u8; 4096];
    for i in 0..u64::MAX {
        let Ok(Some(length)) = reporting::line(decision, stream, i, &mut out) else {
            return Ok(());
        };
        let line = out.get(..length as usize).unwrap_or(&out);
        rt.stdout().write_all(line)?;
    }
    Ok(())
}

fn main(rt: HostRuntime) -> io::Result<()> {
    let mut pairs = [0u32; 4096];
    let mut stream = [0u8; 16384];
    let progress = read_text(&rt, &mut pairs)?;
    let decision = reporting::decide(progress, &pairs, &mut stream);
    write_lines(&rt, decision, &stream)
}
