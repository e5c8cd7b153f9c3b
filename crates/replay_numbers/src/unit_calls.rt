// The calls of bridgenook's module unit_counts.
ghost use Rattle.std.specs.Prelude.{◌≡◌, ◌≢◌, ◌↔◌, None, codes};

use bridgenook::unit_counts;
use stored_cases::cases::{Case, UNWRITTEN};
use stored_cases::verdicts::Outcome;

// A call on a number of bits or of words.
fn convert<F: Fn(u64, &mut [u64; 8]) -> u32>(mut case: Case<'_>, call: F) -> Outcome
    requires { F.IsAlwaysCallable call }
{
    let count = case.number()?;
    let mut answer = UNWRITTEN;
    let result = call(count, &mut answer);
    case.answered(result, &answer)?.verdict()
}

pub fn run(case: Case<'_>) -> Option<Outcome>
    ensures { (result ≡ None) ↔ ((case.entry.name.now ≢ codes "words_for") × (case.entry.name.now ≢ codes "bits_in")) }
{
    let outcome = match case.name {
        "words_for" => convert(case, unit_counts::bridgenook_words_for),
        "bits_in" => convert(case, unit_counts::bridgenook_bits_in),
        _ => return None,
    };
    Some(outcome)
}
