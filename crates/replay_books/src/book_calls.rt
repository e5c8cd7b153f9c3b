// The calls of bridgenook's module book_calls.
ghost use Rattle.std.specs.Prelude.{◌≡◌, ◌≢◌, ◌↔◌, None, codes};

use bridgenook::book_calls;
use stored_cases::cases::{Case, LONGEST, UNWRITTEN};
use stored_cases::lists::List;
use stored_cases::verdicts::Outcome;

fn check_book(mut case: Case<'_>) -> Outcome {
    let mut book = List::<u16, LONGEST>::new();
    case.list(&mut book)?;
    let mut answer = UNWRITTEN;
    let result = book_calls::bridgenook_check_book(book.as_slice(), &mut answer);
    case.answered(result, &answer)?.verdict()
}

fn check_table(mut case: Case<'_>) -> Outcome {
    let mut book = List::<u16, LONGEST>::new();
    case.list(&mut book)?;
    let mut table = List::<u16, LONGEST>::new();
    case.list(&mut table)?;
    let mut answer = UNWRITTEN;
    let result = book_calls::bridgenook_check_table(book.as_slice(), table.as_slice(), &mut answer);
    case.answered(result, &answer)?.verdict()
}

fn fill_table(mut case: Case<'_>) -> Outcome {
    let mut book = List::<u16, LONGEST>::new();
    case.list(&mut book)?;
    let mut table = List::<u16, LONGEST>::new();
    case.list(&mut table)?;
    let mut answer = UNWRITTEN;
    let result = book_calls::bridgenook_fill_table(
        book.as_slice(),
        table.as_mut_slice(),
        &mut answer,
    );
    case.answered(result, &answer)?
        .compare(table.as_slice())?
        .verdict()
}

// The list behind the numbers is the part that `books::pick` hands back.
fn pick(mut case: Case<'_>) -> Outcome {
    let mut set = List::<u16, LONGEST>::new();
    case.list(&mut set)?;
    let phase = case.number()?;
    let mut answer = UNWRITTEN;
    let result = book_calls::bridgenook_pick(set.as_slice(), phase, &mut answer);
    case.answered(result, &answer)?
        .compare(books::pick(set.as_slice(), phase))?
        .verdict()
}

pub fn run(case: Case<'_>) -> Option<Outcome>
    ensures { (result ≡ None) ↔ ((case.entry.name.now ≢ codes "check_book") × (case.entry.name.now ≢ codes "check_table") × (case.entry.name.now ≢ codes "fill_table") × (case.entry.name.now ≢ codes "pick")) }
{
    let outcome = match case.name {
        "check_book" => check_book(case),
        "check_table" => check_table(case),
        "fill_table" => fill_table(case),
        "pick" => pick(case),
        _ => return None,
    };
    Some(outcome)
}
