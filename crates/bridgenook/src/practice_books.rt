// The practice books and the practice decoding table, handed out.
ghost use Rattle.std.specs.Prelude.{◌≡◌};
ghost use Rattle.books.specs.Table.{table_of};
ghost use Rattle.practice.specs.Practice.{pair_book, window_book};
ghost use Rattle.bridgenook.specs.Exports.{Says, hand_out_of, handed_out};

use super::answers;

pub fn bridgenook_practice_pair_book(out: &mut [u16], answer: &mut [u64; 8]) -> u32
    ensures { Says (hand_out_of pair_book out.old) result answer.new × (out.new ≡ handed_out pair_book out.old) }
{
    let book = practice::pair_book();
    answers::hand_out(&book, out, answer)
}

pub fn bridgenook_practice_window_book(out: &mut [u16], answer: &mut [u64; 8]) -> u32
    ensures { Says (hand_out_of window_book out.old) result answer.new × (out.new ≡ handed_out window_book out.old) }
{
    let book = practice::window_book();
    answers::hand_out(&book, out, answer)
}

pub fn bridgenook_practice_pair_table(out: &mut [u16], answer: &mut [u64; 8]) -> u32
    ensures { Says (hand_out_of (table_of pair_book) out.old) result answer.new × (out.new ≡ handed_out (table_of pair_book) out.old) }
{
    let table = practice::pair_table();
    answers::hand_out(&table, out, answer)
}
