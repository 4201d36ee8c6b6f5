// Which numbers are addresses, and the last slot of an address byte.
ghost use Rattle.std.specs.Prelude.{◌≡◌};
ghost use Rattle.bus.specs.Symbols.{heading, heading_bit};
ghost use Rattle.bus.specs.Addresses.{is_address as is_one};

use crate::{Direction, Symbol};

// Whether masters and slaves may use the number: 8 to 119.
pub fn is_address(number: u16) -> bool
    ensures { result ≡ is_one number }
{
    matches!(number, 8..=119)
}

impl Direction {
    // The direction that the last slot of an address byte tells. No From: S and P count as a read here, which a conversion would not say.
    pub fn of_bit(bit: Symbol) -> Direction
        ensures { result ≡ heading bit }
    {
        match bit {
            Symbol::Zero => Direction::Write,
            _ => Direction::Read,
        }
    }
}

// The last slot of an address byte of that direction.
impl From<Direction> for Symbol {
    ghost from_gives = { λ d x. x ≡ heading_bit d };

    fn from(direction: Direction) -> Symbol {
        match direction {
            Direction::Write => Symbol::Zero,
            Direction::Read => Symbol::One,
        }
    }
}
