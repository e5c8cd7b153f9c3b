// A line of text at the front of a lent output. There is no heap here: digits and names lie in arrays of the most that they take, with a length beside them,
// and bytes are put where `write!` would want a String.
ghost use Rattle.std.specs.Prelude.{◌++◌, ◌≡◌, ◌+◌, ◌≤◌, length, take, drop};
ghost use Rattle.std.proofs.Math.Seq.{paste};
ghost use Rattle.io.specs.Counts.{IsPrefixLen};
ghost use Rattle.reporting.specs.Lines.{decimal, line};
ghost use Rattle.reporting.specs.Report.{word_name};
ghost use Rattle.reporting.specs.Calls.{laid, line_into};

use crate::LineAnswer;
use refusals::Refusal;

// Puts bytes at a place, and answers the place after them.
fn put(bytes: &[u8], at: usize, out: &mut [u8]) -> usize
    requires { at + length bytes.now ≤ length out.old }
    ensures { (result ≡ at + length bytes.now) × (out.new ≡ paste out.old at bytes.now (length bytes.now)) }
{
    let end = at + bytes.len();
    out[at..end].copy_from_slice(bytes);
    end
}

// The name, the equals sign, what is said, the newline; its length is answered.
fn write_line(name: &[u8], said: &[u8], out: &mut [u8]) -> usize
    requires { length name.now + length said.now + 2 ≤ length out.old }
    ensures { (result ≡ length (line name.now said.now))
        × (out.new ≡ line name.now said.now ++ drop (length (line name.now said.now)) out.old) }
{
    let named = put(name, 0, out);
    let equalled = put(b"=", named, out);
    let told = put(said, equalled, out);
    put(b"\n", told, out)
}

pub fn put_line(name: &[u8], said: &[u8], out: &mut [u8]) -> LineAnswer
    requires { (length name.now ≤ 64) × (length said.now ≤ 64) }
    ensures { laid result out.new ≡ line_into (line name.now said.now) out.old }
{
    if out.len() < name.len() + said.len() + 2 {
        return Err(Refusal::NoRoom);
    }
    Ok(Some(write_line(name, said, out) as u64))
}

pub fn put_number(name: &[u8], number: u64, out: &mut [u8]) -> LineAnswer
    requires { length name.now ≤ 64 }
    ensures { laid result out.new ≡ line_into (line name.now (decimal number)) out.old }
{
    let mut digits = [0u8; 20];
    let length = io::decimal(number, &mut digits);
    put_line(name, &digits[..length], out)
}

// w and the word's index.
fn name_word(index: u64, name: &mut [u8; 21]) -> usize
    ensures prefix_len { IsPrefixLen result name.new }
    ensures name_after { take result name.new ≡ word_name ++ decimal index }
{
    let mut digits = [0u8; 20];
    let length = io::decimal(index, &mut digits);
    let at = put(b"w", 0, name);
    put(&digits[..length], at, name)
}

pub fn put_word(index: u64, word: u64, out: &mut [u8]) -> LineAnswer
    ensures { laid result out.new ≡ line_into (line (word_name ++ decimal index) (decimal word)) out.old }
{
    let mut name = [0u8; 21];
    let length = name_word(index, &mut name);
    put_number(&name[..length], word, out)
}
