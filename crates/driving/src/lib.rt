// How the register master works its block: what it reads and writes after a slot, and what it keeps beside the block.
#![tactic(auto)]

mod access;
mod steps;

pub use access::{assembled, begin, is_starting, release, status};
use block::Block;
use orders::{Bytes, Order, Outcome};
pub use steps::{clear_loss, respond, retry};

// What a contender is about: an S before a segment, its address byte, a byte written, a byte read, its P.
#[derive(Clone, Copy, Debug, PartialEq, Eq, Hash)]
pub enum Phase {
    Opening,
    Address,
    Write,
    Read,
    Stopping,
}

// Segments and bytes count from 0; the bits of a byte are counted by the block.
#[derive(Clone, Copy, Debug, PartialEq, Eq, Hash)]
pub enum Standing {
    Idle,
    Waiting,
    Contending { phase: Phase, segment: u8, byte: u8 },
    Answered,
}

// What is kept beside the block and the order: the bytes are those read so far.
// Side by side, and no enum with room for less: `respond` promises what becomes of each, in every standing.
#[derive(Clone, Copy)]
pub struct State {
    pub standing: Standing,
    pub losses: u16,
    pub outcome: Outcome,
    pub bytes: Bytes,
}

// A block, the order that it is worked for, and how far it has come in it.
#[derive(Clone, Copy)]
pub struct Drive {
    pub block: Block,
    pub order: Order,
    pub state: State,
}
