// What is done with a book.
ghost use Rattle.std.specs.Prelude.{◌≡◌, [], ◌∷◌, length, is_ok, Ok, Err, if◌then◌else◌, nat_lt};
ghost use Rattle.refusals.specs.declared.Refusal.TheVariants.{FullBook};
ghost use Rattle.books.specs.Marks.{marked, left, Grows};

use crate::Book;
use refusals::Refusal;

impl<'a, T: Copy> Book<'a, T> {
    // A book with no mark yet; every place of the slice is left.
    pub fn new(places: &'a mut [T]) -> Self
        ensures used { result.used ≡ 0 }
        ensures places { result.places.now ≡ places.old }
        ensures named { result.places.ghost_name ≡ places.entry.ghost_name }
    {
        Book { places, used: 0 }
    }

    // How many marks it still takes.
    pub fn left(&self) -> usize
        ensures { result ≡ left self.now }
    {
        self.places.len() - self.used
    }

    // How many marks it has.
    pub fn total(&self) -> usize
        ensures { result ≡ length (marked self.now) }
    {
        self.used // one place each
    }

    // Adds a mark after the others; a full book refuses and stays as it is.
    pub fn mark(&mut self, mark: T) -> Result<(), Refusal>
        ensures answer { result ≡ (if nat_lt 0 (left self.old) then Ok tt else Err FullBook) }
        ensures grows { Grows self.old self.new (if is_ok result then mark ∷ [] else []) }
    {
        if self.used >= self.places.len() {
            return Err(Refusal::FullBook);
        }
        self.places[self.used] = mark;
        self.used += 1;
        Ok(())
    }

    // Uses the book up and gives the slice back to its lender: how many marks it has.
    pub fn close(self) -> usize
        ensures total { result ≡ self.entry.used }
        ensures lent { self.exit.0.now ≡ self.entry.places.now }
    {
        let Book { places: _, used } = self;
        used
    }
}
