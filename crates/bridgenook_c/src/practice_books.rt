// The practice books and the practice decoding table, handed out.
ghost use Rattle.std.specs.Prelude.{◌≡◌};
ghost use Rattle.books.specs.Table.{table_of};
ghost use Rattle.practice.specs.Practice.{pair_book, window_book};
ghost use Rattle.bridgenook.specs.Exports.{Says, hand_out_of, handed_out};

#[unsafe(no_mangle)]
pub extern "C" fn bridgenook_practice_pair_book(out: &mut [u16], answer: &mut [u64; 8]) -> u32
    ensures { Says (hand_out_of pair_book out.old) result answer.new × (out.new ≡ handed_out pair_book out.old) }
{
    bridgenook::practice_books::bridgenook_practice_pair_book(out, answer)
}

#[unsafe(no_mangle)]
pub extern "C" fn bridgenook_practice_window_book(out: &mut [u16], answer: &mut [u64; 8]) -> u32
    ensures { Says (hand_out_of window_book out.old) result answer.new × (out.new ≡ handed_out window_book out.old) }
{
    bridgenook::practice_books::bridgenook_practice_window_book(out, answer)
}

#[unsafe(no_mangle)]
pub extern "C" fn bridgenook_practice_pair_table(out: &mut [u16], answer: &mut [u64; 8]) -> u32
    ensures { Says (hand_out_of (table_of pair_book) out.old) result answer.new × (out.new ≡ handed_out (table_of pair_book) out.old) }
{
    bridgenook::practice_books::bridgenook_practice_pair_table(out, answer)
}
