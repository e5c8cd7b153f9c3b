// Replays the stored cases of data/: makes each call on its stored input, and compares what comes out with what is stored. The crate stored_cases says how a case is written.
#![tactic(auto)]

mod calls;
mod files;
#[cfg(test)]
mod tests;

use std::io;

fn main(rt: HostRuntime) -> io::Result<()> {
    files::replay(&rt, "rust.txt")?;
    files::replay(&rt, "by-hand.txt")
}
