// What a line has of a case: its inputs, given out in turn; and behind the call what is stored of its answer and of the memory that it was lent.
ghost use Rattle.std.specs.Prelude.{◌≡◌, ◌≢◌, ◌≤◌, codes, length, IfOk, IfErr};
ghost use Rattle.std.specs.Io.{StartsWith};
ghost use Rattle.stored_cases.specs.declared.verdicts.NoVerdict.TheVariants.{NotACase};
ghost use Rattle.stored_cases.specs.declared.verdicts.Verdict.TheVariants.{Agrees};

use super::lists::{List, is_list, read_into};
use super::numbers::decimal;
use super::verdicts::{NoVerdict, Outcome, Verdict};
use std::str;
use std::str::FromStr;

// The most numbers that a list holds while it is read (a matrix: as many as there is room for).
pub const LONGEST: usize = 8192;

// What `answer` holds before a call, so that a number left unwritten shows.
pub const UNWRITTEN: [u64; 8] = [0xA5A5_A5A5_A5A5_A5A5; 8];

#[derive(Clone, Copy)]
pub struct Case<'a> {
    // which call it is
    pub name: &'a str,
    // what stands behind that, and was not given out yet
    rest: Option<&'a str>,
}

// A case whose call was made.
#[derive(Clone, Copy)]
pub struct Answered<'a> {
    // of the numbers, and of the lists that were compared
    pub so_far: Verdict,
    // the lists that were not compared yet
    lists: Option<&'a str>,
}

// The first word, and what stands behind the space after it, where there is one.
fn cut_word(text: &str) -> (&str, Option<&str>)
    ensures { StartsWith text.now result.0.now }
{
    match text.split_once(' ') {
        Some((word, behind)) => (word, Some(behind)),
        None => (text, None),
    }
}

// What stands before the first ` ; `, and what behind it, where there is one.
fn cut_part(text: &str) -> (&str, Option<&str>) {
    match text.split_once(" ; ") {
        Some((part, behind)) => (part, Some(behind)),
        None => (text, None),
    }
}

// The first word of the line; nothing, where that is no text.
fn first_word(line: &[u8]) -> &str
    ensures { StartsWith line.now result.now }
{
    let word = line.split(|byte| *byte == b' ').next().unwrap_or(b"");
    str::from_utf8(word).unwrap_or("")
}

// The stored numbers: three to nine, and 0 for those left out.
fn stored_numbers(text: &str) -> Option<[u64; 9]> {
    let spaces = text.bytes().filter(|byte| *byte == b' ').count();
    if !(2..=8).contains(&spaces) {
        return None;
    }
    let mut stored = [0; 9];
    for (place, word) in stored.iter_mut().zip(text.split(' ')) {
        *place = decimal(word)?;
    }
    Some(stored)
}

// Whether the numbers are what was answered.
fn compare_numbers(stored: &[u64; 9], res: u32, answer: &[u64; 8]) -> Verdict {
    Verdict::from(stored[0] == u64::from(res) && stored[1..] == answer[..])
}

impl<'a> Case<'a> {
    // Any line has a name, its first word, and behind that what the calls below give out: they find whether it is a case. (A line that is not UTF-8 is none, for a
    // case is ASCII: of it there is the first word alone.)
    pub fn read(line: &'a [u8]) -> Case<'a>
        ensures { StartsWith line.now result.name.now }
    {
        let text = str::from_utf8(line).unwrap_or_else(|_| first_word(line));
        let (name, rest) = cut_word(text);
        Case { name, rest }
    }

    fn next_word(&mut self) -> Result<&'a str, NoVerdict>
        ensures no_case { IfErr result (λ why. why ≡ NotACase) }
        ensures stays { IfErr result (λ _. self.new ≡ self.old) }
    {
        let rest = self.rest.ok_or(NoVerdict::NotACase)?;
        let (word, others) = cut_word(rest);
        self.rest = others;
        Ok(word)
    }

    // Behind the last input stands `=`: that is none, and it stays where it is.
    fn next_input(&mut self) -> Result<&'a str, NoVerdict>
        ensures input { IfOk result (λ word. word.now ≢ codes "=") }
        ensures no_case { IfErr result (λ why. why ≡ NotACase) }
        ensures stays { IfErr result (λ _. self.new ≡ self.old) }
    {
        let before = *self;
        let word = self.next_word()?;
        if word == "=" {
            *self = before;
            return Err(NoVerdict::NotACase);
        }
        Ok(word)
    }

    // The next input, a number.
    pub fn number<T: FromStr>(&mut self) -> Result<T, NoVerdict>
    where
        T::Err: Drop,
        ensures { IfErr result (λ why. why ≡ NotACase) }
    {
        decimal(self.next_input()?).ok_or(NoVerdict::NotACase)
    }

    // The next input, a list: it becomes that, where it has room for it.
    pub fn list<T: TryFrom<u64> + Drop, const MOST: usize>(
        &mut self,
        list: &mut List<T, MOST>,
    ) -> Result<(), NoVerdict>
    where
        T::Error: Drop,
        ensures { IfErr result (λ why. why ≡ NotACase) }
    {
        list.read_as(self.next_input()?)
    }

    // The next input, a matrix: as a list, but it has no more rows than there is room for while it is read, either.
    pub fn matrix<const MOST: usize>(&mut self, rows: &mut List<u64, MOST>) -> Result<(), NoVerdict>
        ensures { IfErr result (λ why. why ≡ NotACase) }
    {
        rows.read(self.next_input()?)
    }

    // The same, into what is lent: how many rows it has. What stands behind them may have been written, and anything where it is refused.
    pub fn matrix_into(&mut self, rows: &mut [u64]) -> Result<usize, NoVerdict>
        ensures room { IfOk result (λ count. count ≤ length rows.new) }
        ensures no_case { IfErr result (λ why. why ≡ NotACase) }
    {
        read_into(self.next_input()?, rows)
    }

    // Once all inputs were given out: compares what the call answered.
    pub fn answered(mut self, res: u32, answer: &[u64; 8]) -> Result<Answered<'a>, NoVerdict>
        ensures { IfErr result (λ why. why ≡ NotACase) }
    {
        if self.next_word()? != "=" {
            return Err(NoVerdict::NotACase);
        }
        let (numbers, lists) = cut_part(self.rest.ok_or(NoVerdict::NotACase)?);
        let stored = stored_numbers(numbers).ok_or(NoVerdict::NotACase)?;
        Ok(Answered {
            so_far: compare_numbers(&stored, res, answer),
            lists,
        })
    }
}

impl<'a> Answered<'a> {
    // Compares what was lent with the next list.
    pub fn compare<T: Copy>(self, lent: &[T]) -> Result<Answered<'a>, NoVerdict>
    where
        u64: From<T>,
        ensures agrees { IfOk result (λ next. next.so_far ≡ Agrees → self.entry.so_far ≡ Agrees) }
        ensures no_case { IfErr result (λ why. why ≡ NotACase) }
    {
        let (list, others) = cut_part(self.lists.ok_or(NoVerdict::NotACase)?);
        let agrees = is_list(list, lent)?;
        Ok(Answered {
            so_far: self.so_far.and(Verdict::from(agrees)),
            lists: others,
        })
    }

    // What comes of the case, where every list was compared.
    pub fn verdict(self) -> Outcome
        ensures ran { IfOk result (λ verdict. verdict ≡ self.entry.so_far) }
        ensures no_case { IfErr result (λ why. why ≡ NotACase) }
    {
        match self.lists {
            Some(_) => Err(NoVerdict::NotACase),
            None => Ok(self.so_far),
        }
    }
}
