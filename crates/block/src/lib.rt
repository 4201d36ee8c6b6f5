// The IIC register block of the EMMA Mobile1, as a master.
#![tactic(auto)]

mod flags;
mod registers;
mod slots;
mod tasks;
mod wires;

use bus::Turn;

// The registers, by their offsets.
pub const IIC0: u32 = 0x00;

pub const IICC0: u32 = 0x08;

pub const SVA0: u32 = 0x0C;

pub const IICCL0: u32 = 0x10;

pub const IICSE0: u32 = 0x1C;

pub const IICF0: u32 = 0x28;

// The register that an offset names.
#[derive(Clone, Copy, Debug, PartialEq, Eq, Hash)]
pub enum Register {
    Iic0,
    Iicc0,
    Sva0,
    Iiccl0,
    Iicse0,
    Iicf0,
}

// The bits of IICC0 that are stored. STT0 and SPT0 are read off the task.
#[derive(Clone, Copy, Default, Debug, PartialEq, Eq, Hash)]
pub struct Control {
    pub iice0: bool,
    pub spie0: bool,
    pub wtim0: bool,
    pub acke0: bool,
}

// The flags of IICSE0, bits 15 to 8.
#[derive(Clone, Copy, Default, Debug, PartialEq, Eq, Hash)]
pub struct Status {
    pub msts0: bool,
    pub ald0: bool,
    pub exc0: bool,
    pub coi0: bool,
    pub trc0: bool,
    pub ackd0: bool,
    pub std0: bool,
    pub spd0: bool,
}

// What the block is about.
#[derive(Clone, Copy, Debug, PartialEq, Eq, Hash)]
pub enum Task {
    // nothing asked for
    Rest,
    // the wait after its own S, and the one after a ninth slot
    StartWait,
    NinthWait,
    // what a wait was answered with: a byte in IIC0, WREL0, STT0 or SPT0; STT0 may be set on a free bus too
    Send(u8),
    Receive,
    Start,
    Stop,
}

#[derive(Clone, Copy, Debug, PartialEq, Eq, Hash)]
pub struct Block {
    turn: Turn,
    // the bits of the byte that moves, so far
    shift: u8,
    task: Task,
    control: Control,
    status: Status,
    // the last byte moved
    iic0: u8,
    sva0: u8,
    iiccl0: u8,
    iicf0: u8,
}
