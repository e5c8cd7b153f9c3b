// What is lent to the readers, judged: a book of so many symbols, its decoding table, and a stream.
ghost use Rattle.std.specs.Prelude.{◌≡◌, [], IfOk};
ghost use Rattle.refusals.specs.Told.{told_plain};
ghost use Rattle.compression.specs.Reading.{Holds, parts_judged, room_judged};

use super::coded_stream::CodedStream;
use super::pair_list::MOST_PAIRS;
use refusals::Refusal;

// 2, then 3.
pub fn coded_stream<'a, const SYMBOLS: usize>(
    book: &[u16],
    table: &'a [u16],
    stream: &'a [u8],
) -> Result<CodedStream<'a>, Refusal>
    ensures told { told_plain result ≡ parts_judged SYMBOLS book.now table.now stream.now }
    ensures lent { IfOk result (λ coded. (coded.bytes.now ≡ stream.now) × Holds book.now coded.table.now) }
{
    if book.len() != SYMBOLS || 0x4000_0000 < stream.len() {
        return Err(Refusal::WrongLength);
    }
    let Ok(entries) = <&[u16; 4096]>::try_from(table) else {
        return Err(Refusal::WrongLength);
    };
    books::check_table(book, table)?;
    Ok(CodedStream {
        bytes: stream,
        table: entries,
    })
}

// 4, then 5, for so many pairs to read.
pub fn judge_room(count: u32, room: usize) -> Result<(), Refusal>
    ensures { told_plain result ≡ room_judged count room }
{
    if MOST_PAIRS < count {
        return Err(Refusal::TooManyPairs);
    }
    if room < count as usize {
        return Err(Refusal::NoRoom);
    }
    Ok(())
}
