// An item of a list as it is written: V, VxN, V~N, _N, /N, @I:V, or a name.
use super::numbers::decimal;
use super::verdicts::NoVerdict;
use std::str::FromStr;

#[derive(Clone, Copy)]
pub enum Item {
    // VxN: V, N times; V alone is Vx1, and _N is the empty slot N times
    Times { value: u64, times: u64 },
    // V~N: V, V+1, .., N numbers
    Rising { first: u64, times: u64 },
    // /N: what is there, cut to N entries
    Cut(u64),
    // @I:V: entry I becomes V
    Put { place: u64, value: u64 },
    PairBook,
    WindowBook,
    PairTable,
    WindowTable,
}

// What an empty slot of a pair table holds.
const EMPTY: u64 = 0xFFFF_FFFF;

// The numbers before and after the first `mark`.
fn halves(text: &str, mark: char) -> Option<(u64, u64)> {
    let (first, second) = text.split_once(mark)?;
    Some((decimal(first)?, decimal(second)?))
}

fn cut(length: &str) -> Option<Item> {
    Some(Item::Cut(decimal(length)?))
}

fn empty(times: &str) -> Option<Item> {
    Some(Item::Times {
        value: EMPTY,
        times: decimal(times)?,
    })
}

fn put(text: &str) -> Option<Item> {
    let (place, value) = halves(text, ':')?;
    Some(Item::Put { place, value })
}

fn entries(text: &str) -> Option<Item> {
    if let Some((value, times)) = halves(text, 'x') {
        return Some(Item::Times { value, times });
    }
    let (first, times) = halves(text, '~')?;
    Some(Item::Rising { first, times })
}

fn read(text: &str) -> Option<Item> {
    if let Some(value) = decimal(text) {
        return Some(Item::Times { value, times: 1 });
    }
    if let Some(length) = text.strip_prefix('/') {
        return cut(length);
    }
    if let Some(change) = text.strip_prefix('@') {
        return put(change);
    }
    if let Some(times) = text.strip_prefix('_') {
        return empty(times);
    }
    match text {
        "pairbook" => Some(Item::PairBook),
        "windowbook" => Some(Item::WindowBook),
        "pairtable" => Some(Item::PairTable),
        "windowtable" => Some(Item::WindowTable),
        _ => entries(text),
    }
}

impl FromStr for Item {
    type Err = NoVerdict;

    fn from_str(text: &str) -> Result<Item, NoVerdict> {
        read(text).ok_or(NoVerdict::NotACase)
    }
}
