// One byte after another inside a line: what the next byte belongs to. None: the byte may not stand there.
ghost use Rattle.std.specs.Prelude.{◌&&◌, ◌≡◌, ◌-◌, eqb, leb};
ghost use Rattle.reporting.specs.Machine.{lettered, name_of, letter_move, after_name, next_digits, index_move, number_move, move_of};

use crate::{Digits, Field};

// Where a byte leaves a line.
#[derive(Clone, Copy)]
pub enum Move {
    // inside the line: the next byte belongs to this
    To(Field),
    // the line is whole, and says this number
    Ends(u32),
}

#[derive(Clone, Copy)]
pub enum Letter {
    // the last one of its name
    Last,
    // the next one's place
    Inside(u64),
}

// No digit yet.
const NONE: Digits = Digits {
    begun: false,
    sofar: 0,
};

// The digits with one more: no leading zero, and below 2^32.
#[tactic(auto, using(laws::proofs::Choices::choices))]
fn with_digit(digits: Digits, byte: u8) -> Option<Digits>
    ensures { result ≡ next_digits digits byte }
{
    if !byte.is_ascii_digit() {
        return None;
    }
    if digits.begun && digits.sofar == 0 {
        return None;
    }
    let digit = u32::from(byte - b'0');
    let sofar = digits.sofar.checked_mul(10)?.checked_add(digit)?;
    Some(Digits { begun: true, sofar })
}

// A byte held against the letter at `place` of a name.
#[tactic(auto, using(laws::proofs::Choices::choices))]
fn letter_of(name: &[u8], place: u64, byte: u8) -> Option<Letter>
    ensures { result ≡ lettered name.now place byte }
{
    let at = place as usize;
    if name.len() <= at || byte != name[at] {
        return None;
    }
    if at + 1 == name.len() {
        return Some(Letter::Last);
    }
    Some(Letter::Inside(place + 1))
}

// What stands before a line's first digit: the name, with the equals sign where no index comes before it.
#[tactic(auto, using(laws::proofs::Choices::choices))]
fn name_of(line: u64) -> &'static [u8]
    ensures { result.now ≡ name_of line }
{
    match line {
        0 => b"lg_k=",
        1 => b"pairs=",
        _ => b"p",
    }
}

// A pair's name goes on with its index, another one with the number.
#[tactic(auto, using(laws::proofs::Choices::choices))]
fn after_name(line: u64) -> Field
    ensures { result ≡ after_name line }
{
    if line < 2 {
        return Field::Number(NONE);
    }
    Field::Index(NONE)
}

// The number is the index of the line's pair.
#[tactic(auto, using(laws::proofs::Choices::choices))]
fn is_index(line: u64, number: u32) -> bool
    ensures { result ≡ (leb 2 line && eqb number (line - 2)) }
{
    if line < 2 {
        return false;
    }
    u64::from(number) == line - 2
}

fn follow_name(line: u64, place: u64, byte: u8) -> Option<Move>
    ensures { result ≡ letter_move line (lettered (name_of line) place byte) }
{
    let field = match letter_of(name_of(line), place, byte)? {
        Letter::Last => after_name(line),
        Letter::Inside(next) => Field::Name(next),
    };
    Some(Move::To(field))
}

// An equals sign ends the index.
#[tactic(auto, using(laws::proofs::Choices::choices))]
fn follow_index(line: u64, digits: Digits, byte: u8) -> Option<Move>
    ensures { result ≡ index_move line digits byte }
{
    if digits.begun && byte == b'=' {
        if !is_index(line, digits.sofar) {
            return None;
        }
        return Some(Move::To(Field::Number(NONE)));
    }
    let longer = with_digit(digits, byte)?;
    Some(Move::To(Field::Index(longer)))
}

// A newline ends the number and the line.
#[tactic(auto, using(laws::proofs::Choices::choices))]
fn follow_number(digits: Digits, byte: u8) -> Option<Move>
    ensures { result ≡ number_move digits byte }
{
    if digits.begun && byte == b'\n' {
        return Some(Move::Ends(digits.sofar));
    }
    let longer = with_digit(digits, byte)?;
    Some(Move::To(Field::Number(longer)))
}

// Where a byte leaves a line.
#[tactic(auto, unfolding(crate::specs::Machine::move_of))]
pub fn follow(line: u64, field: Field, byte: u8) -> Option<Move>
    ensures { result ≡ move_of line field byte }
{
    match field {
        Field::Name(place) => follow_name(line, place, byte),
        Field::Index(digits) => follow_index(line, digits, byte),
        Field::Number(digits) => follow_number(digits, byte),
    }
}
