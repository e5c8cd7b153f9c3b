// The text of a stored case, taken apart; and whether what a call answered and left in lent memory is what is stored.
// A file is text. A line that is empty or begins with `#` is a comment; any other line is a case: call inputs = number place bit values
// and behind that ` ; list` for each part of lent memory that is compared: what it holds afterwards.
// One space parts two words. `number` is the result, 0 where the call is accepted. Values left out at the end are 0.
#![tactic(auto)]

pub mod cases;
mod items;
pub mod lists;
mod numbers;
#[cfg(test)]
mod tests;
pub mod verdicts;
