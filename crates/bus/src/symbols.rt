// Symbols, their order, and the bits among them.
ghost use Rattle.std.specs.Prelude.{◌≡◌, ◌/◌, ◌^◌, ◌<◌, MatchResult};
ghost use Rattle.history.specs.Marks.{least};
ghost use Rattle.bus.specs.Symbols.{rank as rank_of, symbols, is_bit, bit as bit_of, value as value_of, shifted, acknowledge};

use crate::{NoSymbol, Symbol};
use history::Mark;
use std::cmp::Ordering;

impl Symbol {
    // 0 for 0, 1 for P, 2 for S, 3 for 1: the order of the symbols.
    pub fn rank(self) -> u8
        ensures { result ≡ rank_of self }
    {
        match self {
            Symbol::Zero => 0,
            Symbol::Stop => 1,
            Symbol::Start => 2,
            Symbol::One => 3,
        }
    }

    // The lesser of two: what a slot carries where both are offered.
    pub fn lesser(self, other: Symbol) -> Symbol
        ensures { result ≡ least symbols self other }
    {
        self.min(other)
    }

    // Whether it is 0 or 1.
    pub fn is_bit(self) -> bool
        ensures { result ≡ is_bit self }
    {
        matches!(self, Symbol::Zero | Symbol::One)
    }

    // The bit of a byte at a place, 7 the highest; past the highest there are 0s.
    pub fn of_bit(byte: u8, place: u8) -> Symbol
        ensures { result ≡ bit_of (byte / 2 ^ place) }
    {
        if place > 7 {
            return Symbol::Zero;
        }
        if (byte >> place) % 2 == 0 {
            Symbol::Zero
        } else {
            Symbol::One
        }
    }

    // The ninth slot of a byte: 0 acknowledges.
    pub fn acknowledge(yes: bool) -> Symbol
        ensures { result ≡ acknowledge yes }
    {
        if yes { Symbol::Zero } else { Symbol::One }
    }

    // What it counts as a bit: 1 where SDA stays high. No From: S and P count as 0 here, which a conversion would not say.
    pub fn value(self) -> u8
        ensures { result ≡ value_of self }
    {
        match self {
            Symbol::One => 1,
            _ => 0,
        }
    }

    // The bits of a byte with this one more, after the others; the ninth before it falls out.
    pub fn shifted_into(self, bits: u8) -> u8
        ensures { result ≡ shifted bits self }
    {
        bits % 128 * 2 + self.value()
    }
}

impl TryFrom<u8> for Symbol {
    type Error = NoSymbol;

    ghost try_from_gives = { λ n r. MatchResult r (λ x. rank_of x ≡ n) (λ e. (3 < n) × (e.rank ≡ n)) };

    fn try_from(rank: u8) -> Result<Symbol, NoSymbol> {
        match rank {
            0 => Ok(Symbol::Zero),
            1 => Ok(Symbol::Stop),
            2 => Ok(Symbol::Start),
            3 => Ok(Symbol::One),
            _ => Err(NoSymbol { rank }),
        }
    }
}

impl Mark for Symbol {
    ghost marks = { symbols };

    fn against(self, other: Symbol) -> Ordering {
        self.cmp(&other)
    }

    fn greatest() -> Symbol {
        Symbol::One
    }
}
