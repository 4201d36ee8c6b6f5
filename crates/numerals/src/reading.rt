// Which numbers a line is.
ghost use Rattle.std.specs.Prelude.{ℕ, MatchOption};
ghost use Rattle.array_vec.specs.Items.{items_of};
ghost use Rattle.numerals.specs.Lines.{Digit, Numeral, Is, Wrong, OneList};

use array_vec::ArrayVec;

// The value of a digit.
fn digit(b: u8) -> Option<u16>
    ensures { MatchOption result ((d : ℕ) → Digit b d → ⊥) (λ d. Digit b d) }
{
    match b {
        b'0'..=b'9' => Some(u16::from(b - b'0')),
        _ => None,
    }
}

// The number that a word is: one to three digits, no leading zero.
// An arm for each length: with `try_fold` (tried) the check finds neither that its sums fit nor what it comes to.
fn number(word: &[u8]) -> Option<u16>
    ensures { MatchOption result ((n : ℕ) → Numeral word.now n → ⊥) (λ n. Numeral word.now n) }
{
    match word {
        [a] => digit(*a),
        [b'0', ..] => None,
        [a, b] => Some(10 * digit(*a)? + digit(*b)?),
        [a, b, c] => Some(100 * digit(*a)? + 10 * digit(*b)? + digit(*c)?),
        _ => None,
    }
}

// The numbers of a line, word by word.
fn split_numbers(line: &[u8]) -> Option<ArrayVec<u16, 47>>
    ensures { MatchOption result (Wrong line.now) (λ ns. Is line.now (items_of ns)) }
{
    let mut numbers = ArrayVec::new(0);
    for word in line.split(|b| *b == b' ') {
        numbers.push(number(word)?).ok()?;
    }
    Some(numbers)
}

// The numbers of a line, if it is a line of at most 47 numbers.
pub fn read_numbers(line: &[u8]) -> Option<ArrayVec<u16, 47>>
    ensures { MatchOption result (Wrong line.now) (λ ns. Is line.now (items_of ns)) }
{
    split_numbers(line)
}

// A line is one list of numbers, if any.
pub fn one_list()
    ensures { OneList }
{}
