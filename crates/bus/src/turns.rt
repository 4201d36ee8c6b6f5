// The turns: whose slot the next one is, what it may carry, and where that leads.
ghost use Rattle.std.specs.Prelude.{◌≡◌};
ghost use Rattle.bus.specs.Turns.{next as next_of, masters_slot, legal as legal_in, busy, acknowledged as acknowledged_of};

use crate::{Direction, Symbol, Turn};

impl Turn {
    // After a ninth slot: 0 acknowledges.
    fn acknowledged(self, ninth: Symbol) -> Turn
        ensures { result ≡ acknowledged_of self ninth }
    {
        match ninth {
            Symbol::Zero => self,
            _ => Turn::ClosingBorder,
        }
    }

    // Where a slot that carries the symbol leads: S begins an address byte and P frees the bus, wherever they come.
    pub fn next(self, carried: Symbol) -> Turn
        ensures { result ≡ next_of self carried }
    {
        match (self, carried) {
            (_, Symbol::Stop) => Turn::Free,
            (_, Symbol::Start) => Turn::Address(7),
            (Turn::Free, _) => Turn::Free,
            (Turn::Address(0), bit) => Turn::AddressNinth(Direction::of_bit(bit)),
            (Turn::Address(n), _) => Turn::Address(n - 1),
            (Turn::AddressNinth(Direction::Write), ninth) => Turn::Border.acknowledged(ninth),
            (Turn::AddressNinth(Direction::Read), ninth) => Turn::Read(7).acknowledged(ninth),
            (Turn::Border, _) => Turn::Write(6),
            (Turn::Write(0), _) => Turn::WriteNinth,
            (Turn::Write(n), _) => Turn::Write(n - 1),
            (Turn::WriteNinth, ninth) => Turn::Border.acknowledged(ninth),
            (Turn::Read(0), _) => Turn::ReadNinth,
            (Turn::Read(n), _) => Turn::Read(n - 1),
            (Turn::ReadNinth, ninth) => Turn::Read(7).acknowledged(ninth),
            (Turn::ClosingBorder, _) => Turn::ClosingBorder,
        }
    }

    // Whether the next slot is the masters'; else it is the slaves'.
    pub fn is_masters(self) -> bool
        ensures { result ≡ masters_slot self }
    {
        !matches!(
            self,
            Turn::AddressNinth(_) | Turn::WriteNinth | Turn::Read(_)
        )
    }

    // Whether the next slot may carry the symbol.
    pub fn allows(self, symbol: Symbol) -> bool
        ensures { result ≡ legal_in self symbol }
    {
        match (self, symbol) {
            (Turn::Free, Symbol::Start | Symbol::One) => true,
            (Turn::Free, Symbol::Zero | Symbol::Stop) => false,
            (Turn::Border, _) => true,
            (Turn::ClosingBorder, Symbol::Start | Symbol::Stop) => true,
            (Turn::ClosingBorder, Symbol::Zero | Symbol::One) => false,
            (_, Symbol::Zero | Symbol::One) => true,
            (_, Symbol::Start | Symbol::Stop) => false,
        }
    }

    // Whether the bus is taken: from an S to its P.
    pub fn is_busy(self) -> bool
        ensures { result ≡ busy self }
    {
        !matches!(self, Turn::Free)
    }
}
