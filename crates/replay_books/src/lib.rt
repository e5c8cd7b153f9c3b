// Stored cases of bridgenook's modules book_calls and practice_books.
#![tactic(auto)]

ghost use Rattle.std.specs.Prelude.{◌≡◌, ◌≢◌, ◌↔◌, None, codes};

mod book_calls;
mod practice_calls;

use stored_cases::cases::Case;
use stored_cases::verdicts::Outcome;

// `None`: its call is none of these.
pub fn run(case: Case<'_>) -> Option<Outcome>
    ensures { (result ≡ None) ↔ ((case.entry.name.now ≢ codes "check_book") × (case.entry.name.now ≢ codes "check_table") × (case.entry.name.now ≢ codes "fill_table") × (case.entry.name.now ≢ codes "pick") × (case.entry.name.now ≢ codes "practice_pair_book") × (case.entry.name.now ≢ codes "practice_window_book") × (case.entry.name.now ≢ codes "practice_pair_table")) }
{
    match book_calls::run(case) {
        None => practice_calls::run(case),
        outcome => outcome,
    }
}

// The same, of any line.
pub fn run_line(line: &[u8]) -> Option<Outcome> {
    run(Case::read(line))
}
