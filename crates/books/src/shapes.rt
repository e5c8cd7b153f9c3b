// The shapes of a book's entries, and how many numbers their codewords take.
ghost use Rattle.std.specs.Prelude.{◌≡◌};
ghost use Rattle.books.specs.Book.{shaped};
ghost use Rattle.books.specs.Steps.{ShapesBy};

use super::book::SizedBook;
use refusals::Refusal;

// Length 1 to 12, codeword below 2^length.
fn is_shaped(entry: u16) -> bool
    ensures { result ≡ shaped entry }
{
    let length = entry / 4096;
    if length < 1 || 12 < length {
        return false;
    }
    entry % 4096 < 1 << length
}

impl SizedBook<'_> {
    // How many numbers below 4,096 the codewords take, all together; else the first symbol of wrong shape.
    pub fn taken(self) -> Result<usize, Refusal>
        ensures { ShapesBy self.entry.entries.now result }
    {
        let mut sum: usize = 0;
        for (x, entry) in self.entries.iter().enumerate() {
            if !is_shaped(*entry) {
                return Err(Refusal::WrongBook { place: x as u64 });
            }
            sum += 4096 >> (entry / 4096);
        }
        Ok(sum)
    }
}
