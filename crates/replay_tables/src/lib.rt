// Stored cases of bridgenook's module table_calls. A table is written as its lg, valid bits and items, then its region and its spare.
#![tactic(auto)]

ghost use Rattle.std.specs.Prelude.{◌≡◌, ◌≢◌, ◌↔◌, None, codes};

use bridgenook::table_calls;
use stored_cases::cases::{Case, UNWRITTEN};
use stored_cases::lists::List;
use stored_cases::verdicts::{NoVerdict, Outcome};

// The most slots that a case lends or lists.
const SLOTS: usize = 256;

// A table as a case gives it, and the memory that is lent to it.
#[derive(Drop)]
struct Table {
    lg: u8,
    valid: u8,
    items: u32,
    region: List<u32, SLOTS>,
    spare: List<u32, SLOTS>,
}

impl Table {
    fn read(case: &mut Case<'_>) -> Result<Table, NoVerdict> {
        let mut table = Table {
            lg: case.number()?,
            valid: case.number()?,
            items: case.number()?,
            region: List::new(),
            spare: List::new(),
        };
        case.list(&mut table.region)?;
        case.list(&mut table.spare)?;
        Ok(table)
    }
}

fn new(mut case: Case<'_>) -> Outcome {
    let lg = case.number()?;
    let valid = case.number()?;
    let mut region = List::<u32, SLOTS>::new();
    case.list(&mut region)?;
    let mut spare = List::<u32, SLOTS>::new();
    case.list(&mut spare)?;
    let mut answer = UNWRITTEN;
    let result = table_calls::bridgenook_table_new(
        lg,
        valid,
        region.as_mut_slice(),
        spare.as_mut_slice(),
        &mut answer,
    );
    case.answered(result, &answer)?
        .compare(region.as_slice())?
        .compare(spare.as_slice())?
        .verdict()
}

// An insert, or a delete.
fn change<F: Fn(u8, u8, u32, &mut [u32], &mut [u32], u32, &mut [u64; 8]) -> u32>(
    mut case: Case<'_>,
    call: F,
) -> Outcome
    requires { F.IsAlwaysCallable call }
{
    let mut table = Table::read(&mut case)?;
    let item = case.number()?;
    let mut answer = UNWRITTEN;
    let result = call(
        table.lg,
        table.valid,
        table.items,
        table.region.as_mut_slice(),
        table.spare.as_mut_slice(),
        item,
        &mut answer,
    );
    case.answered(result, &answer)?
        .compare(table.region.as_slice())?
        .compare(table.spare.as_slice())?
        .verdict()
}

fn clear(mut case: Case<'_>) -> Outcome {
    let mut table = Table::read(&mut case)?;
    let mut answer = UNWRITTEN;
    let result = table_calls::bridgenook_table_clear(
        table.lg,
        table.valid,
        table.items,
        table.region.as_mut_slice(),
        table.spare.as_mut_slice(),
        &mut answer,
    );
    case.answered(result, &answer)?
        .compare(table.region.as_slice())?
        .compare(table.spare.as_slice())?
        .verdict()
}

fn build(mut case: Case<'_>) -> Outcome {
    let valid = case.number()?;
    let mut list = List::<u32, SLOTS>::new();
    case.list(&mut list)?;
    let mut region = List::<u32, SLOTS>::new();
    case.list(&mut region)?;
    let mut spare = List::<u32, SLOTS>::new();
    case.list(&mut spare)?;
    let mut answer = UNWRITTEN;
    let result = table_calls::bridgenook_table_build(
        valid,
        list.as_slice(),
        region.as_mut_slice(),
        spare.as_mut_slice(),
        &mut answer,
    );
    case.answered(result, &answer)?
        .compare(region.as_slice())?
        .compare(spare.as_slice())?
        .verdict()
}

// An extraction, or a walk.
fn list<F: Fn(u8, u8, u32, &[u32], &[u32], &mut [u32], &mut [u64; 8]) -> u32>(
    mut case: Case<'_>,
    call: F,
) -> Outcome
    requires { F.IsAlwaysCallable call }
{
    let table = Table::read(&mut case)?;
    let mut out = List::<u32, SLOTS>::new();
    case.list(&mut out)?;
    let mut answer = UNWRITTEN;
    let result = call(
        table.lg,
        table.valid,
        table.items,
        table.region.as_slice(),
        table.spare.as_slice(),
        out.as_mut_slice(),
        &mut answer,
    );
    case.answered(result, &answer)?
        .compare(out.as_slice())?
        .verdict()
}

// `None`: its call is none of these.
pub fn run(case: Case<'_>) -> Option<Outcome>
    ensures { (result ≡ None) ↔ ((case.entry.name.now ≢ codes "table_new") × (case.entry.name.now ≢ codes "table_insert") × (case.entry.name.now ≢ codes "table_delete") × (case.entry.name.now ≢ codes "table_clear") × (case.entry.name.now ≢ codes "table_build") × (case.entry.name.now ≢ codes "table_extract") × (case.entry.name.now ≢ codes "table_walk")) }
{
    let outcome = match case.name {
        "table_new" => new(case),
        "table_insert" => change(case, table_calls::bridgenook_table_insert),
        "table_delete" => change(case, table_calls::bridgenook_table_delete),
        "table_clear" => clear(case),
        "table_build" => build(case),
        "table_extract" => list(case, table_calls::bridgenook_table_extract),
        "table_walk" => list(case, table_calls::bridgenook_table_walk),
        _ => return None,
    };
    Some(outcome)
}

// The same, of any line.
pub fn run_line(line: &[u8]) -> Option<Outcome> {
    run(Case::read(line))
}
