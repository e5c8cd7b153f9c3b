// A book of so many symbols that passes its check, as the writers need it.
ghost use Rattle.std.specs.Prelude.{◌≡◌, not, [], ◌≤◌, eqb, length, IfOk};
ghost use Rattle.laws.specs.Choose.{choose};
ghost use Rattle.refusals.specs.Outcome.{refused};
ghost use Rattle.refusals.specs.Told.{told_plain};
ghost use Rattle.books.specs.Calls.{check_of};
ghost use Rattle.books.specs.Steps.{AllShaped};

use books::check_book;
use refusals::Refusal;

#[derive(Clone, Copy)]
pub struct Book<'a, const SYMBOLS: usize> {
    pub entries: &'a [u16; SYMBOLS],
    ghost shaped: { AllShaped entries.now },
    ghost sized: { length entries.now ≡ SYMBOLS },
}

// 2, then 3.
pub fn whole_book<const SYMBOLS: usize>(book: &[u16]) -> Result<Book<'_, SYMBOLS>, Refusal>
    requires { SYMBOLS ≤ 256 }
    ensures told { told_plain result ≡ choose (not (eqb (length book.now) SYMBOLS)) (refused 2 0) (check_of book.now) }
    ensures same { IfOk result (λ whole. whole.entries.now ≡ book.now) }
{
    let Ok(entries) = <&[u16; SYMBOLS]>::try_from(book) else {
        return Err(Refusal::WrongLength);
    };
    check_book(book)?;
    Ok(Book { entries })
}
