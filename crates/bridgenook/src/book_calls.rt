// The book calls.
ghost use Rattle.std.specs.Prelude.{◌≡◌};
ghost use Rattle.books.specs.Calls.{check_of, check_table_of, fill_of, filled, pick_of};
ghost use Rattle.bridgenook.specs.Exports.{Says};

use super::answers::say;
use super::values::Part;

pub fn bridgenook_check_book(book: &[u16], answer: &mut [u64; 8]) -> u32
    ensures { Says (check_of book.now) result answer.new }
{
    say(books::check_book(book), answer)
}

pub fn bridgenook_check_table(book: &[u16], table: &[u16], answer: &mut [u64; 8]) -> u32
    ensures { Says (check_table_of book.now table.now) result answer.new }
{
    say(books::check_table(book, table), answer)
}

pub fn bridgenook_fill_table(book: &[u16], table: &mut [u16], answer: &mut [u64; 8]) -> u32
    ensures { Says (fill_of book.now table.old) result answer.new × (table.new ≡ filled book.now table.old) }
{
    say(books::fill_table(book, table), answer)
}

pub fn bridgenook_pick(set: &[u16], phase: u8, answer: &mut [u64; 8]) -> u32
    ensures { Says (pick_of set.now phase) result answer.new }
{
    say(books::pick_place(set, phase).map(Part), answer)
}
