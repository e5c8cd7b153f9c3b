// Every call, by the crate that makes it.
use stored_cases::verdicts::{NoVerdict, Outcome};

pub fn run(line: &[u8]) -> Outcome {
    replay_numbers::run_line(line)
        .or_else(|| replay_books::run_line(line))
        .or_else(|| replay_streams::run_line(line))
        .or_else(|| replay_tables::run_line(line))
        .or_else(|| replay_unions::run_line(line))
        .unwrap_or(Err(NoVerdict::NotACase))
}
