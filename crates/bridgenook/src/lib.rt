// The public calls for C and Rust, under the prefix `bridgenook_`; `bridgenook_c` exports them. The result is 0 if the call is accepted, else document 01's number;
// `answer` gets the place, the bit position, then the values of an accepted call, and zeros.
#![tactic(auto)]

mod answers;
pub mod book_calls;
pub mod number_calls;
pub mod practice_books;
pub mod stream_calls;
pub mod table_calls;
pub mod union_calls;
pub mod unit_counts;
mod values;
pub mod version;
