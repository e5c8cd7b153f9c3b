// The static library: the public calls for C and Rust, under the prefix `bridgenook_`. Each is the call of that name of `bridgenook`, with its clauses. The result is 0 if the call is
// accepted, else document 01's number; `answer` gets the place, the bit position, then the values of an accepted call, and zeros. `bridgenook_version` alone takes nothing.
// Twins of `bridgenook` by the C interface: what is a static library no other crate can use, so the calls for Rust stand there.
#![tactic(auto)]

pub mod book_calls;
pub mod number_calls;
pub mod practice_books;
pub mod stream_calls;
pub mod table_calls;
pub mod union_calls;
pub mod unit_counts;
pub mod version;
