// Where in a byte the next slot is.
ghost use Rattle.std.specs.Prelude.{◌≡◌};
ghost use Rattle.block.specs.Slots.{is_ninth, first_of_data, in_byte, bits_left};

use bus::{Direction, Turn};

// The first slot of an address byte, and the last before its ninth.
pub(crate) const FIRST_OF_ADDRESS: Turn = Turn::Address(7);

pub(crate) const EIGHTH_OF_ADDRESS: Turn = Turn::Address(0);

// The ninth slot of an address byte, by its direction.
pub(crate) const AFTER_WRITE: Turn = Turn::AddressNinth(Direction::Write);

pub(crate) const AFTER_READ: Turn = Turn::AddressNinth(Direction::Read);

pub(crate) fn is_ninth(turn: Turn) -> bool
    ensures { result ≡ is_ninth turn }
{
    matches!(
        turn,
        Turn::AddressNinth(_) | Turn::WriteNinth | Turn::ReadNinth
    )
}

// The first slot of a byte after the address.
pub(crate) fn is_first_of_data(turn: Turn) -> bool
    ensures { result ≡ first_of_data turn }
{
    matches!(turn, Turn::Border | Turn::ClosingBorder | Turn::Read(7))
}

// A slot of the byte has passed, and its ninth has not.
pub(crate) fn is_in_byte(turn: Turn) -> bool
    ensures { result ≡ in_byte turn }
{
    is_ninth(turn)
        || matches!(
            turn,
            Turn::Address(0..=6) | Turn::Write(_) | Turn::Read(0..=6)
        )
}

// The place of the byte's next bit, 7 the highest.
pub(crate) fn place(turn: Turn) -> u8
    ensures { result ≡ bits_left turn }
{
    match turn {
        Turn::Address(n) | Turn::Write(n) | Turn::Read(n) => n,
        _ => 7,
    }
}
