// The bus: what a slot may carry, and whose slot it is.
#![tactic(auto)]

mod addresses;
mod levels;
mod symbols;
mod texts;
mod turns;

pub use addresses::is_address;
pub use levels::halves_agree;

// What a slot carries: 0, P (stop), S (start) or 1. A slot carries the least symbol offered.
#[derive(Clone, Copy, Debug, PartialEq, Eq, PartialOrd, Ord, Hash)]
pub enum Symbol {
    Zero,
    Stop,
    Start,
    One,
}

// A rank over 3.
#[derive(Clone, Copy, Debug, PartialEq, Eq, Hash)]
pub struct NoSymbol {
    pub rank: u8,
}

// SDA in one half of SCL's high time.
#[derive(Clone, Copy, Debug, PartialEq, Eq, PartialOrd, Ord, Hash)]
pub enum Level {
    Low,
    High,
}

// The last bit of an address byte.
#[derive(Clone, Copy, Debug, PartialEq, Eq, Hash)]
pub enum Direction {
    Write,
    Read,
}

// Where the bus is: what the next slot is. A number counts the slots of the byte that come after the next one.
#[derive(Clone, Copy, Debug, PartialEq, Eq, Hash)]
pub enum Turn {
    Free,
    Address(u8),
    AddressNinth(Direction),
    // after an acknowledged write address or write byte: P, S, or the first bit of a further byte
    Border,
    Write(u8),
    WriteNinth,
    Read(u8),
    ReadNinth,
    // after a ninth slot of 1: P or S
    ClosingBorder,
}

// Two banks of masters or slaves side by side, the left one numbered first.
#[derive(Drop)]
pub struct Pair<A, B> {
    pub left: A,
    pub right: B,
}
