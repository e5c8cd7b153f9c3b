// The calls of bridgenook's module practice_books.
ghost use Rattle.std.specs.Prelude.{◌≡◌, ◌≢◌, ◌↔◌, None, codes};

use bridgenook::practice_books;
use stored_cases::cases::{Case, LONGEST, UNWRITTEN};
use stored_cases::lists::List;
use stored_cases::verdicts::Outcome;

// A call that copies a practice book, or its decoding table, into lent memory.
fn copy<F: Fn(&mut [u16], &mut [u64; 8]) -> u32>(mut case: Case<'_>, call: F) -> Outcome
    requires { F.IsAlwaysCallable call }
{
    let mut out = List::<u16, LONGEST>::new();
    case.list(&mut out)?;
    let mut answer = UNWRITTEN;
    let result = call(out.as_mut_slice(), &mut answer);
    case.answered(result, &answer)?
        .compare(out.as_slice())?
        .verdict()
}

pub fn run(case: Case<'_>) -> Option<Outcome>
    ensures { (result ≡ None) ↔ ((case.entry.name.now ≢ codes "practice_pair_book") × (case.entry.name.now ≢ codes "practice_window_book") × (case.entry.name.now ≢ codes "practice_pair_table")) }
{
    let outcome = match case.name {
        "practice_pair_book" => copy(case, practice_books::bridgenook_practice_pair_book),
        "practice_window_book" => copy(case, practice_books::bridgenook_practice_window_book),
        "practice_pair_table" => copy(case, practice_books::bridgenook_practice_pair_table),
        _ => return None,
    };
    Some(outcome)
}
