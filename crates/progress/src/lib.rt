// How far a contender has come in its order: a position of a few numbers, and what it has noted.
#![tactic(auto)]

ghost use Rattle.std.specs.Prelude.{◌≡◌, ◌<◌};
ghost use Rattle.scripts.specs.Scripts.{no_notes};
ghost use Rattle.orders.specs.Orders.{read_of};
ghost use Rattle.progress.specs.Positions.{resume as resumed};
ghost use Rattle.progress.specs.Notes.{notes_of};

use bus::Direction;
use orders::{Bytes, Outcome, Segment};

mod finished;
mod losses;
mod script;

pub use finished::Finished;
pub use losses::one_more;
pub use script::Progress;

// Where in a segment. `bit` counts the bits that come after the next one, `byte` from 0.
#[derive(Clone, Copy, Debug, PartialEq, Eq)]
pub enum Stage {
    // S before the segment, or P after the last
    Opening,
    Address { bit: u8 },
    Direction,
    AddressNinth,
    Write { byte: u8, bit: u8 },
    WriteNinth { byte: u8 },
    Read { byte: u8, bit: u8 },
    ReadNinth { byte: u8 },
    // P after a slaves' ninth of 1
    Closing,
    Over,
}

#[derive(Clone, Copy, Debug, PartialEq, Eq)]
pub struct Position {
    segment: u8,
    stage: Stage,
}

// The bytes read, what the bits of a byte under way come to, and the outcome.
#[derive(Clone, Copy)]
pub struct Notes {
    bytes: Bytes,
    part: u8,
    outcome: Outcome,
}

impl Position {
    // The first slot of an order.
    fn first() -> Position
        ensures { result ≡ record { segment = 0; stage = Stage.Opening } }
    {
        Position {
            segment: 0,
            stage: Stage::Opening,
        }
    }

    // Where the bytes of its segment go on from `byte`, or the next segment.
    fn resume(self, segment: Segment, byte: u8) -> Position
        requires { self.segment < 4 }
        ensures { result ≡ resumed self.segment byte (read_of segment.direction) segment.count }
    {
        if byte >= segment.count {
            return Position {
                segment: self.segment + 1,
                stage: Stage::Opening,
            };
        }
        let stage = match segment.direction {
            Direction::Write => Stage::Write { byte, bit: 7 },
            Direction::Read => Stage::Read { byte, bit: 7 },
        };
        Position { stage, ..self }
    }
}

impl Notes {
    fn new() -> Notes
        ensures { notes_of result ≡ no_notes }
    {
        Notes {
            bytes: Bytes::new(),
            part: 0,
            outcome: Outcome::Done,
        }
    }
}
