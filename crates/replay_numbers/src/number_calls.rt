// The calls of bridgenook's module number_calls.
ghost use Rattle.std.specs.Prelude.{◌≡◌, ◌≢◌, ◌↔◌, None, codes};

use bridgenook::number_calls;
use stored_cases::cases::{Case, UNWRITTEN};
use stored_cases::verdicts::Outcome;

fn rows(mut case: Case<'_>) -> Outcome {
    let lg = case.number()?;
    let mut answer = UNWRITTEN;
    let result = number_calls::bridgenook_rows(lg, &mut answer);
    case.answered(result, &answer)?.verdict()
}

// A call on an lg_k and a count of coupons or of pairs.
fn on_count<F: Fn(u8, u32, &mut [u64; 8]) -> u32>(mut case: Case<'_>, call: F) -> Outcome
    requires { F.IsAlwaysCallable call }
{
    let lg = case.number()?;
    let count = case.number()?;
    let mut answer = UNWRITTEN;
    let result = call(lg, count, &mut answer);
    case.answered(result, &answer)?.verdict()
}

pub fn run(case: Case<'_>) -> Option<Outcome>
    ensures { (result ≡ None) ↔ ((case.entry.name.now ≢ codes "rows") × (case.entry.name.now ≢ codes "determine_flavor") × (case.entry.name.now ≢ codes "determine_correct_offset") × (case.entry.name.now ≢ codes "determine_pseudo_phase") × (case.entry.name.now ≢ codes "number_of_base_bits") × (case.entry.name.now ≢ codes "most_bits")) }
{
    let outcome = match case.name {
        "rows" => rows(case),
        "determine_flavor" => on_count(case, number_calls::bridgenook_determine_flavor),
        "determine_correct_offset" => on_count(
            case,
            number_calls::bridgenook_determine_correct_offset,
        ),
        "determine_pseudo_phase" => on_count(case, number_calls::bridgenook_determine_pseudo_phase),
        "number_of_base_bits" => on_count(case, number_calls::bridgenook_number_of_base_bits),
        "most_bits" => on_count(case, number_calls::bridgenook_most_bits),
        _ => return None,
    };
    Some(outcome)
}
