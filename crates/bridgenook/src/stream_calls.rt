// Streams of pairs and of windows, and the judgement of a list of pairs.
ghost use Rattle.std.specs.Prelude.{◌≡◌};
ghost use Rattle.pair_lists.specs.Lists.{judge_pairs_of};
ghost use Rattle.streams.specs.Calls.{write_pairs_of, pairs_written, write_window_of, window_written, read_pairs_of, pairs_read, read_window_of, window_read};
ghost use Rattle.bridgenook.specs.Exports.{Says};

use super::answers::say;

pub fn bridgenook_judge_pairs(lg: u8, pairs: &[u32], answer: &mut [u64; 8]) -> u32
    ensures { Says (judge_pairs_of lg pairs.now) result answer.new }
{
    say(pair_lists::judge_pairs(lg, pairs), answer)
}

pub fn bridgenook_write_pairs(
    book: &[u16],
    lg: u8,
    pairs: &[u32],
    out: &mut [u8],
    answer: &mut [u64; 8],
) -> u32
    ensures { Says (write_pairs_of book.now lg pairs.now out.old) result answer.new
        × (out.new ≡ pairs_written book.now lg pairs.now out.old) }
{
    say(compression::write_pairs(book, lg, pairs, out), answer)
}

pub fn bridgenook_write_window(
    book: &[u16],
    lg: u8,
    window: &[u8],
    out: &mut [u8],
    answer: &mut [u64; 8],
) -> u32
    ensures { Says (write_window_of book.now lg window.now out.old) result answer.new
        × (out.new ≡ window_written book.now lg window.now out.old) }
{
    say(compression::write_window(book, lg, window, out), answer)
}

pub fn bridgenook_read_pairs(
    book: &[u16],
    table: &[u16],
    lg: u8,
    count: u32,
    stream: &[u8],
    out: &mut [u32],
    answer: &mut [u64; 8],
) -> u32
    ensures { Says (read_pairs_of book.now table.now lg count stream.now out.old) result answer.new
        × (out.new ≡ pairs_read book.now table.now lg count stream.now out.old) }
{
    say(
        compression::read_pairs(book, table, lg, count, stream, out),
        answer,
    )
}

pub fn bridgenook_read_window(
    book: &[u16],
    table: &[u16],
    lg: u8,
    stream: &[u8],
    window: &mut [u8],
    answer: &mut [u64; 8],
) -> u32
    ensures { Says (read_window_of book.now table.now lg stream.now window.old) result answer.new
        × (window.new ≡ window_read book.now table.now lg stream.now window.old) }
{
    say(
        compression::read_window(book, table, lg, stream, window),
        answer,
    )
}
