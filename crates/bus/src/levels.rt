// Slots as two half-slot levels.
ghost use Rattle.std.specs.Prelude.{◌≡◌};
ghost use Rattle.bus.specs.Levels.{early as early_of, late as late_of, levels, HalvesAgree};

use crate::{Level, Symbol};
use history::Mark;
use std::cmp::Ordering;

impl Symbol {
    // SDA in the early half of the slot.
    pub fn early(self) -> Level
        ensures { result ≡ early_of self }
    {
        match self {
            Symbol::Zero | Symbol::Stop => Level::Low,
            Symbol::Start | Symbol::One => Level::High,
        }
    }

    // SDA in the late half of the slot.
    pub fn late(self) -> Level
        ensures { result ≡ late_of self }
    {
        match self {
            Symbol::Zero | Symbol::Start => Level::Low,
            Symbol::Stop | Symbol::One => Level::High,
        }
    }
}

// The symbol whose two halves these are, the early one first.
impl From<(Level, Level)> for Symbol {
    ghost from_gives = { λ halves x. (early_of x ≡ halves.0) × (late_of x ≡ halves.1) };

    fn from(halves: (Level, Level)) -> Symbol {
        match halves {
            (Level::Low, Level::Low) => Symbol::Zero,
            (Level::Low, Level::High) => Symbol::Stop,
            (Level::High, Level::Low) => Symbol::Start,
            (Level::High, Level::High) => Symbol::One,
        }
    }
}

impl Mark for Level {
    ghost marks = { levels };

    fn against(self, other: Level) -> Ordering {
        self.cmp(&other)
    }

    fn greatest() -> Level {
        Level::High
    }
}

// Slots and half-slot levels name the same least history.
pub fn halves_agree()
    ensures { HalvesAgree }
{}
