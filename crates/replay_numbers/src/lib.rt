// Stored cases of bridgenook's modules unit_counts and number_calls.
#![tactic(auto)]

ghost use Rattle.std.specs.Prelude.{◌≡◌, ◌≢◌, ◌↔◌, None, codes};

mod number_calls;
mod unit_calls;

use stored_cases::cases::Case;
use stored_cases::verdicts::Outcome;

// `None`: its call is none of these.
pub fn run(case: Case<'_>) -> Option<Outcome>
    ensures { (result ≡ None) ↔ ((case.entry.name.now ≢ codes "words_for") × (case.entry.name.now ≢ codes "bits_in") × (case.entry.name.now ≢ codes "rows") × (case.entry.name.now ≢ codes "determine_flavor") × (case.entry.name.now ≢ codes "determine_correct_offset") × (case.entry.name.now ≢ codes "determine_pseudo_phase") × (case.entry.name.now ≢ codes "number_of_base_bits") × (case.entry.name.now ≢ codes "most_bits")) }
{
    match unit_calls::run(case) {
        None => number_calls::run(case),
        outcome => outcome,
    }
}

// The same, of any line.
pub fn run_line(line: &[u8]) -> Option<Outcome> {
    run(Case::read(line))
}
