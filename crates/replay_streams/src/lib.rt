// Stored cases of bridgenook's module stream_calls.
#![tactic(auto)]

ghost use Rattle.std.specs.Prelude.{◌≡◌, ◌≢◌, ◌↔◌, None, codes};

use bridgenook::stream_calls;
use stored_cases::cases::{Case, LONGEST, UNWRITTEN};
use stored_cases::lists::List;
use stored_cases::verdicts::Outcome;

fn judge_pairs(mut case: Case<'_>) -> Outcome {
    let lg = case.number()?;
    let mut pairs = List::<u32, LONGEST>::new();
    case.list(&mut pairs)?;
    let mut answer = UNWRITTEN;
    let result = stream_calls::bridgenook_judge_pairs(lg, pairs.as_slice(), &mut answer);
    case.answered(result, &answer)?.verdict()
}

fn write_pairs(mut case: Case<'_>) -> Outcome {
    let mut book = List::<u16, LONGEST>::new();
    case.list(&mut book)?;
    let lg = case.number()?;
    let mut pairs = List::<u32, LONGEST>::new();
    case.list(&mut pairs)?;
    let mut out = List::<u8, LONGEST>::new();
    case.list(&mut out)?;
    let mut answer = UNWRITTEN;
    let result = stream_calls::bridgenook_write_pairs(
        book.as_slice(),
        lg,
        pairs.as_slice(),
        out.as_mut_slice(),
        &mut answer,
    );
    case.answered(result, &answer)?
        .compare(out.as_slice())?
        .verdict()
}

fn write_window(mut case: Case<'_>) -> Outcome {
    let mut book = List::<u16, LONGEST>::new();
    case.list(&mut book)?;
    let lg = case.number()?;
    let mut window = List::<u8, LONGEST>::new();
    case.list(&mut window)?;
    let mut out = List::<u8, LONGEST>::new();
    case.list(&mut out)?;
    let mut answer = UNWRITTEN;
    let result = stream_calls::bridgenook_write_window(
        book.as_slice(),
        lg,
        window.as_slice(),
        out.as_mut_slice(),
        &mut answer,
    );
    case.answered(result, &answer)?
        .compare(out.as_slice())?
        .verdict()
}

fn read_pairs(mut case: Case<'_>) -> Outcome {
    let mut book = List::<u16, LONGEST>::new();
    case.list(&mut book)?;
    let mut table = List::<u16, LONGEST>::new();
    case.list(&mut table)?;
    let lg = case.number()?;
    let count = case.number()?;
    let mut stream = List::<u8, LONGEST>::new();
    case.list(&mut stream)?;
    let mut out = List::<u32, LONGEST>::new();
    case.list(&mut out)?;
    let mut answer = UNWRITTEN;
    let result = stream_calls::bridgenook_read_pairs(
        book.as_slice(),
        table.as_slice(),
        lg,
        count,
        stream.as_slice(),
        out.as_mut_slice(),
        &mut answer,
    );
    case.answered(result, &answer)?
        .compare(out.as_slice())?
        .verdict()
}

fn read_window(mut case: Case<'_>) -> Outcome {
    let mut book = List::<u16, LONGEST>::new();
    case.list(&mut book)?;
    let mut table = List::<u16, LONGEST>::new();
    case.list(&mut table)?;
    let lg = case.number()?;
    let mut stream = List::<u8, LONGEST>::new();
    case.list(&mut stream)?;
    let mut window = List::<u8, LONGEST>::new();
    case.list(&mut window)?;
    let mut answer = UNWRITTEN;
    let result = stream_calls::bridgenook_read_window(
        book.as_slice(),
        table.as_slice(),
        lg,
        stream.as_slice(),
        window.as_mut_slice(),
        &mut answer,
    );
    case.answered(result, &answer)?
        .compare(window.as_slice())?
        .verdict()
}

// `None`: its call is none of these.
pub fn run(case: Case<'_>) -> Option<Outcome>
    ensures { (result ≡ None) ↔ ((case.entry.name.now ≢ codes "judge_pairs") × (case.entry.name.now ≢ codes "write_pairs") × (case.entry.name.now ≢ codes "write_window") × (case.entry.name.now ≢ codes "read_pairs") × (case.entry.name.now ≢ codes "read_window")) }
{
    let outcome = match case.name {
        "judge_pairs" => judge_pairs(case),
        "write_pairs" => write_pairs(case),
        "write_window" => write_window(case),
        "read_pairs" => read_pairs(case),
        "read_window" => read_window(case),
        _ => return None,
    };
    Some(outcome)
}

// The same, of any line.
pub fn run_line(line: &[u8]) -> Option<Outcome> {
    run(Case::read(line))
}
