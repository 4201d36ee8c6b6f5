// Orders and answers.
#![tactic(auto)]

use bus::Direction;

mod answers;
mod bytes;
mod order;

pub use bytes::Bytes;
pub use order::Order;

// A segment as a caller asks for it: three numbers, lawful or not. Direction 0 writes, 1 reads.
#[derive(Clone, Copy, Debug, PartialEq, Eq)]
pub struct RawSegment {
    pub address: u16,
    pub direction: u16,
    pub count: u16,
}

// A segment of an order; the bytes of one that writes begin at `at` among those of its order.
#[derive(Clone, Copy, Debug, PartialEq, Eq)]
pub struct Segment {
    pub address: u8,
    pub direction: Direction,
    pub count: u8,
    pub at: u8,
}

impl Segment {
    // The empty write to address 8.
    const NOTHING: Segment = Segment {
        address: 8,
        direction: Direction::Write,
        count: 0,
        at: 0,
    };
}

// What became of an order; segments and bytes count from 0.
#[derive(Clone, Copy, Debug, PartialEq, Eq)]
pub enum Outcome {
    Done,
    // no slave acknowledged that segment's address
    NoAddress { segment: u8 },
    // no slave acknowledged that byte
    NoByte { segment: u8, byte: u8 },
}

// An answer, but for the bytes read, which go into the caller's buffer: the outcome, how often the order had lost, how many bytes were read.
#[derive(Clone, Copy, Debug, PartialEq, Eq)]
pub struct Answer {
    pub outcome: Outcome,
    pub losses: u16,
    pub count: u8,
}
