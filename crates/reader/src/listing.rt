// Lists the words of a record in a book.
ghost use Rattle.std.specs.Prelude.{◌≡◌, ◌-◌, List, map, length, MatchResult};
ghost use Rattle.refusals.specs.Numbers.{number};
ghost use Rattle.books.specs.Marks.{left, Grows};
ghost use Rattle.reader.specs.Words.{Meaning, listed as listed_of};
ghost use Rattle.reader.specs.Records.{WordsOf};
ghost use Rattle.reader.specs.Refusals.{Refused};

use crate::{Listed, Words};
use books::Book;
use refusals::Refusal;

// Marks each word's kind and place, or refuses and leaves the book as it was.
pub fn list(slots: &[u8], book: &mut Book<Listed>) -> Result<(), Refusal>
    ensures cases { MatchResult result
        (λ _. (ws : List Meaning) × WordsOf slots.now ws × Grows book.old book.new (map listed_of ws))
        (λ e. Refused slots.now (left book.old) e (number e) × (book.new ≡ book.old)) }
{
    let words = Words::of(slots)?;
    if book.left() < words.count() {
        return Err(Refusal::FullBook);
    }
    for word in words {
        book.mark(word.listed())?;
    }
    Ok(())
}
