// The words of a record, one after the other.
ghost use Rattle.std.specs.Prelude.{◌≡◌, ℕ, ◌+◌, ◌≤◌, Bool, true, false, List, length, drop, IfSome, is_ok, MatchOption, MatchResult};
ghost use Rattle.std.specs.Iterator.{at_most};
ghost use Rattle.refusals.specs.Numbers.{number};
ghost use Rattle.reader.specs.Words.{Meaning, meant, long, busy_after, Reads, Ended, Takes, NoFreeFirst};
ghost use Rattle.reader.specs.Records.{Whole, WordsOf};
ghost use Rattle.reader.specs.Cursors.{still, Left, Gives};
ghost use Rattle.reader.specs.Refusals.{Wrong};

use crate::{ONE, START, STOP, Word, check};
use refusals::Refusal;

// A record that was checked, the place of the next slot, and whether a contest is under way there.
// It is Copy, so that the words can be counted and then taken.
#[derive(Clone, Copy)]
pub struct Words<'a> {
    slots: &'a [u8],
    place: usize,
    busy: bool,
}

// How many free slots come first: 1s, where no contest is under way.
fn free_slots(slots: &[u8], busy: bool) -> usize
    ensures same { (p : ℕ) (ws : List Meaning) → Reads busy slots.now p ws → Reads busy (drop result slots.now) (p + result) ws }
    ensures all { NoFreeFirst busy (drop result slots.now) }
    ensures within { result ≤ length slots.now }
{
    if busy {
        return 0;
    }
    slots.iter().take_while(|slot| **slot == ONE).count()
}

// The word that comes first where no free slot does: S, P, or the nine slots of a byte.
fn first_word<'a>(slots: &'a [u8], place: usize) -> Option<Word<'a>>
    ensures takes { MatchOption result
        ((b : Bool) → NoFreeFirst b slots.now → Ended b slots.now place)
        (λ w. (b : Bool) → NoFreeFirst b slots.now → Takes b slots.now place (meant w) (busy_after (meant w)) (drop (long (meant w)) slots.now) (place + long (meant w))) }
    ensures within { IfSome result (λ w. long (meant w) ≤ length slots.now) }
{
    match slots {
        [START, ..] => Some(Word::Start { place }),
        [STOP, ..] => Some(Word::Stop { place }),
        _ => {
            let slots = slots.first_chunk::<9>()?;
            Some(Word::Byte { place, slots })
        }
    }
}

impl Word<'_> {
    // How many slots it takes.
    fn long(&self) -> usize
        ensures { result ≡ long (meant self.now) }
    {
        match self {
            Word::Byte { .. } => 9,
            _ => 1,
        }
    }

    // Whether a contest is under way after it.
    fn is_busy_after(&self) -> bool
        ensures { result ≡ busy_after (meant self.now) }
    {
        !matches!(self, Word::Stop { .. })
    }
}

// How many words the iterator gives from here on.
fn words_left(words: Words) -> usize
    ensures { (ws : List Meaning) → Left words.entry ws → result ≡ length ws }
{
    Iterator::count(words)
}

impl<'a> Words<'a> {
    // The words of a record that follows the turns and ends on a free bus.
    pub fn of(slots: &'a [u8]) -> Result<Words<'a>, Refusal>
        ensures cases { MatchResult result (λ w. (ws : List Meaning) × WordsOf slots.now ws × Left w ws) (λ e. Wrong slots.now e (number e)) }
        ensures exactly { Whole slots.now → is_ok result ≡ true }
    {
        check(slots)?;
        Ok(Words {
            slots,
            place: 0,
            busy: false,
        })
    }

    // How many words are left.
    pub fn count(self) -> usize
        ensures { (ws : List Meaning) → Left self.entry ws → result ≡ length ws }
    {
        words_left(self)
    }
}

impl<'a> Iterator for Words<'a> {
    type Item = Word<'a>;

    ghost next_gives = { Gives };

    ghost remaining = { λ w. at_most (length (still w)) };

    fn next(&mut self) -> Option<Word<'a>> {
        let left = self.slots.get(self.place..)?;
        let free = free_slots(left, self.busy);
        let word = first_word(&left[free..], self.place + free)?;
        self.place += free + word.long();
        self.busy = word.is_busy_after();
        Some(word)
    }
}
