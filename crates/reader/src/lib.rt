// The reader: a record of ranks, taken apart into words.
#![tactic(auto)]

ghost use Rattle.std.specs.Prelude.{◌≡◌};
ghost use Rattle.reader.specs.Words.{listed as listed_of, kind_number, meant};

mod bytes;
mod checks;
mod listing;
mod words;

pub use bytes::{acknowledged, address, direction, value};
pub use checks::check;
pub use listing::list;
pub use words::Words;

// The ranks of the symbols, as a record holds them.
const ZERO: u8 = 0;

const STOP: u8 = 1;

const START: u8 = 2;

const ONE: u8 = 3;

// What a word is.
#[derive(Clone, Copy, Debug, PartialEq, Eq, Hash)]
pub enum Kind {
    Start,
    Stop,
    Byte,
}

// What is marked of a word.
#[derive(Clone, Copy, Debug, PartialEq, Eq, Hash)]
pub struct Listed {
    pub kind: Kind,
    pub place: usize,
}

// A word, and the place of its first slot: S, P, or the nine slots of a byte in the record itself.
#[derive(Clone, Copy, Debug, PartialEq, Eq, Hash)]
pub enum Word<'a> {
    Start { place: usize },
    Stop { place: usize },
    Byte { place: usize, slots: &'a [u8; 9] },
}

impl Kind {
    // 0 a start, 1 a stop, 2 a byte, as programs print it.
    pub fn number(self) -> u8
        ensures { result ≡ kind_number self }
    {
        match self {
            Kind::Start => 0,
            Kind::Stop => 1,
            Kind::Byte => 2,
        }
    }
}

impl Word<'_> {
    // Its kind and place.
    pub fn listed(self) -> Listed
        ensures { result ≡ listed_of (meant self.entry) }
    {
        match self {
            Word::Start { place } => Listed {
                kind: Kind::Start,
                place,
            },
            Word::Stop { place } => Listed {
                kind: Kind::Stop,
                place,
            },
            Word::Byte { place, slots: _ } => Listed {
                kind: Kind::Byte,
                place,
            },
        }
    }
}
