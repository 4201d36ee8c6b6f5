// How the parts of the bus are printed.
ghost use Rattle.std.specs.Prelude.{Some};
ghost use Rattle.bus.specs.Texts.{letter, level_word, direction_word, no_symbol};

use crate::{Direction, Level, NoSymbol, Symbol};
use std::error::Error;
use std::fmt;

// The letter of UM10204's drawings: 0, P, S or 1.
impl fmt::Display for Symbol {
    ghost output = { λ x. Some (letter x) };

    fn fmt<W: fmt::Write>(&self, f: &mut fmt::Formatter<W>) -> fmt::Result {
        f.pad(match self {
            Symbol::Zero => "0",
            Symbol::Stop => "P",
            Symbol::Start => "S",
            Symbol::One => "1",
        })
    }
}

impl fmt::Display for Level {
    ghost output = { λ x. Some (level_word x) };

    fn fmt<W: fmt::Write>(&self, f: &mut fmt::Formatter<W>) -> fmt::Result {
        f.pad(match self {
            Level::Low => "low",
            Level::High => "high",
        })
    }
}

impl fmt::Display for Direction {
    ghost output = { λ x. Some (direction_word x) };

    fn fmt<W: fmt::Write>(&self, f: &mut fmt::Formatter<W>) -> fmt::Result {
        f.pad(match self {
            Direction::Write => "write",
            Direction::Read => "read",
        })
    }
}

impl fmt::Display for NoSymbol {
    ghost output = { λ e. Some (no_symbol e) };

    fn fmt<W: fmt::Write>(&self, f: &mut fmt::Formatter<W>) -> fmt::Result {
        write!(f, "no symbol has rank {}", self.rank)
    }
}

impl Error for NoSymbol {}
