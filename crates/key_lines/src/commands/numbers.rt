// The command that the numbers of a line ask for.
ghost use Rattle.std.specs.Prelude.{◌≡◌, ◌≤◌, ◌∷◌, length, MatchOption};
ghost use Rattle.std.proofs.Math.Option.{none};
ghost use Rattle.key_lines.specs.Commands.{Command as Asked, Asks, Means, OneMeaning};
ghost use Rattle.key_lines.specs.Readings.{Fits, Reads};

use super::segments::{filled, read_bytes, read_segments};
use super::{Command, Kind};
use numerals::read_numbers;

fn place(number: u16, count: u16, rest: &[u16]) -> Option<Command>
    requires { length rest.now ≤ 44 }
    ensures { Reads (1 ∷ (number ∷ (count ∷ rest.now))) result }
{
    let (segments, left) = read_segments(count, rest)?;
    let bytes = read_bytes(left)?;
    let order = filled(&segments, &bytes);
    Some(Command::Place { number, order })
}

impl Command {
    fn of_numbers(numbers: &[u16]) -> Option<Command>
        requires { length numbers.now ≤ 47 }
        ensures { Reads numbers.now result }
    {
        let (&[kind, number], rest) = numbers.split_first_chunk::<2>()?;
        match (Kind::try_from(kind).ok()?, rest) {
            (Kind::Place, [count, rest @ ..]) => place(number, *count, rest),
            (Kind::Withdraw, []) => Some(Command::Withdraw { number }),
            (Kind::Tell, [place, byte]) => Some(Command::Tell {
                number,
                place: *place,
                byte: u8::try_from(*byte).ok()?,
            }),
            (Kind::Run, []) => Some(Command::Run { slots: number }),
            (Kind::Collect, []) => Some(Command::Collect { number }),
            _ => None,
        }
    }

    // What a line asks for, if anything.
    pub(crate) fn of_line(line: &[u8]) -> Option<Command>
        ensures { MatchOption result (Means line.now none) (λ k. (c : Asked) × Asks line.now c × Fits k c) }
    {
        let numbers = read_numbers(line)?;
        Command::of_numbers(numbers.as_slice())
    }
}

// No line asks for two things.
pub fn one_meaning()
    ensures { OneMeaning }
{}
