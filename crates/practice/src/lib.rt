// The practice books, until book files arrive, and the practice decoding table for pairs. The window's is filled from its book.
#![tactic(auto)]

ghost use Rattle.std.specs.Prelude.{◌≡◌};
ghost use Rattle.books.specs.Table.{table_of};
ghost use Rattle.practice.specs.Practice.{pair_book, window_book};

mod pair_decoding;
mod pair_entries;
mod window_entries;

// The practice book for pairs.
pub fn pair_book() -> [u16; 65]
    ensures { result ≡ pair_book }
{
    pair_entries::PAIR_BOOK
}

// The practice book for a window.
pub fn window_book() -> [u16; 256]
    ensures { result ≡ window_book }
{
    window_entries::WINDOW_BOOK
}

// The practice decoding table for pairs.
pub fn pair_table() -> [u16; 4096]
    ensures { result ≡ table_of pair_book }
{
    pair_decoding::PAIR_TABLE
}
