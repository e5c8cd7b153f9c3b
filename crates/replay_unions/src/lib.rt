// Stored cases of bridgenook's module union_calls. A union is written as its configured lg, present lg and seed, then its matrix; a source as its lg, seed and coupons, then
// its window and its pairs.
#![tactic(auto)]

ghost use Rattle.std.specs.Prelude.{◌≡◌, ◌≢◌, ◌↔◌, None, codes};

use bridgenook::union_calls;
use stored_cases::cases::{Case, UNWRITTEN};
use stored_cases::lists::List;
use stored_cases::verdicts::Outcome;

// The most rows, and the most pairs, that a case lends or lists.
const ROWS: usize = 256;

const PAIRS: usize = 256;

fn count(mut case: Case<'_>) -> Outcome {
    let lg = case.number()?;
    let mut matrix = List::<u64, ROWS>::new();
    case.matrix(&mut matrix)?;
    let mut answer = UNWRITTEN;
    let result = union_calls::bridgenook_count(lg, matrix.as_slice(), &mut answer);
    case.answered(result, &answer)?.verdict()
}

fn split(mut case: Case<'_>) -> Outcome {
    let lg = case.number()?;
    let mut matrix = List::<u64, ROWS>::new();
    case.matrix(&mut matrix)?;
    let mut window = List::<u8, ROWS>::new();
    case.list(&mut window)?;
    let mut pairs = List::<u32, PAIRS>::new();
    case.list(&mut pairs)?;
    let mut answer = UNWRITTEN;
    let result = union_calls::bridgenook_split(
        lg,
        matrix.as_slice(),
        window.as_mut_slice(),
        pairs.as_mut_slice(),
        &mut answer,
    );
    case.answered(result, &answer)?
        .compare(window.as_slice())?
        .compare(pairs.as_slice())?
        .verdict()
}

fn expand(mut case: Case<'_>) -> Outcome {
    let lg = case.number()?;
    let coupons = case.number()?;
    let mut window = List::<u8, ROWS>::new();
    case.list(&mut window)?;
    let mut pairs = List::<u32, PAIRS>::new();
    case.list(&mut pairs)?;
    let mut matrix = List::<u64, ROWS>::new();
    case.matrix(&mut matrix)?;
    let mut answer = UNWRITTEN;
    let result = union_calls::bridgenook_expand(
        lg,
        coupons,
        window.as_slice(),
        pairs.as_slice(),
        matrix.as_mut_slice(),
        &mut answer,
    );
    case.answered(result, &answer)?
        .compare(matrix.as_slice())?
        .verdict()
}

fn new_union(mut case: Case<'_>) -> Outcome {
    let lg = case.number()?;
    let seed = case.number()?;
    let mut matrix = List::<u64, ROWS>::new();
    case.matrix(&mut matrix)?;
    let mut answer = UNWRITTEN;
    let result = union_calls::bridgenook_new_union(lg, seed, matrix.as_mut_slice(), &mut answer);
    case.answered(result, &answer)?
        .compare(matrix.as_slice())?
        .verdict()
}

fn merge(mut case: Case<'_>) -> Outcome {
    let lg = case.number()?;
    let present = case.number()?;
    let seed = case.number()?;
    let mut matrix = List::<u64, ROWS>::new();
    case.matrix(&mut matrix)?;
    let from = case.number()?;
    let other = case.number()?;
    let coupons = case.number()?;
    let mut window = List::<u8, ROWS>::new();
    case.list(&mut window)?;
    let mut pairs = List::<u32, PAIRS>::new();
    case.list(&mut pairs)?;
    let mut answer = UNWRITTEN;
    let result = union_calls::bridgenook_merge(
        lg,
        present,
        seed,
        matrix.as_mut_slice(),
        from,
        other,
        coupons,
        window.as_slice(),
        pairs.as_slice(),
        &mut answer,
    );
    case.answered(result, &answer)?
        .compare(matrix.as_slice())?
        .verdict()
}

// `None`: its call is none of these.
pub fn run(case: Case<'_>) -> Option<Outcome>
    ensures { (result ≡ None) ↔ ((case.entry.name.now ≢ codes "count") × (case.entry.name.now ≢ codes "split") × (case.entry.name.now ≢ codes "expand") × (case.entry.name.now ≢ codes "new_union") × (case.entry.name.now ≢ codes "merge")) }
{
    let outcome = match case.name {
        "count" => count(case),
        "split" => split(case),
        "expand" => expand(case),
        "new_union" => new_union(case),
        "merge" => merge(case),
        _ => return None,
    };
    Some(outcome)
}

// The same, of any line.
pub fn run_line(line: &[u8]) -> Option<Outcome> {
    run(Case::read(line))
}
