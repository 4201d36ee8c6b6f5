// Making a gauge or a memory.
ghost use Rattle.std.specs.Prelude.{List, replicate};
ghost use Rattle.chips.specs.Parts.{registers_of, cells_of};
ghost use Rattle.chips.specs.States.{IsMade};

use crate::parts::{Cells, Plug, Registers};
use crate::{Chip, Device, Gauge, Memory};
use bus::{Turn, is_address};
use refusals::Refusal;

// A chip at an address of 8 to 119, on a free bus.
fn make<D: Device + Drop>(address: u16, device: D) -> Result<Chip<D>, Refusal>
    ensures { IsMade D.Device.store address (D.Device.store device) result }
{
    if !is_address(address) {
        return Err(Refusal::BadAddress);
    }
    let plug = Plug {
        address: address as u8,
        turn: Turn::Free,
        addressed: false,
        fresh: true,
        bits: 0,
    };
    Ok(Chip { plug, device })
}

impl Chip<Registers> {
    // A gauge with these registers, its pointer at 0.
    pub fn new(address: u16, registers: [u8; 4]) -> Result<Gauge, Refusal>
        ensures { IsMade registers_of address (record { bytes = registers; place = 0 }) result }
    {
        make(
            address,
            Registers {
                registers,
                pointer: 0,
            },
        )
    }
}

impl Chip<Cells> {
    // A memory whose cells are all 0, its place at 0.
    pub fn new(address: u16) -> Result<Memory, Refusal>
        ensures { IsMade cells_of address (record { bytes = replicate 256 0; place = 0 }) result }
    {
        make(
            address,
            Cells {
                cells: [0; 256],
                place: 0,
            },
        )
    }
}
