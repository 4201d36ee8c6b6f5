// What a gauge and a memory make of the bytes that go by.
ghost use Rattle.std.specs.Prelude.{◌≡◌, Ok, Err, is_ok, length, if◌then◌else◌, nat_lt, slice_set};
ghost use Rattle.refusals.specs.declared.Refusal.TheVariants.{NoSuchPlace};
ghost use Rattle.chips.specs.Rules.{gauge, memory};
ghost use Rattle.chips.specs.Parts.{registers_of, cells_of};

use crate::parts::{Cells, Registers};
use crate::{Device, Written};
use refusals::Refusal;

// Sets the byte at a place, if there is one. By get_mut no proof would know the bytes afterwards.
fn put(bytes: &mut [u8], place: usize, byte: u8) -> Result<(), Refusal>
    ensures answer { result ≡ (if nat_lt place (length bytes.old) then Ok tt else Err NoSuchPlace) }
    ensures after { bytes.new ≡ (if is_ok result then slice_set bytes.old place byte else bytes.old) }
{
    if place >= bytes.len() {
        return Err(Refusal::NoSuchPlace);
    }
    bytes[place] = byte;
    Ok(())
}

impl Device for Registers {
    ghost rule = { gauge };

    ghost store = { registers_of };

    fn byte(&self) -> u8 {
        self.registers[self.pointer as usize]
    }

    fn accepts(&self, written: Written) -> bool {
        matches!(written, Written::First(0..=3))
    }

    fn write(&mut self, written: Written) {
        if let Written::First(place @ 0..=3) = written {
            self.pointer = place;
        }
    }

    fn sent(&mut self) {
        self.pointer = (self.pointer + 1) % 4;
    }

    fn set(&mut self, place: usize, byte: u8) -> Result<(), Refusal> {
        put(&mut self.registers, place, byte)
    }
}

impl Device for Cells {
    ghost rule = { memory };

    ghost store = { cells_of };

    fn byte(&self) -> u8 {
        self.cells[self.place as usize]
    }

    fn accepts(&self, _: Written) -> bool {
        true
    }

    fn write(&mut self, written: Written) {
        match written {
            Written::First(place) => self.place = place,
            Written::Later(byte) => {
                self.cells[self.place as usize] = byte;
                self.sent();
            }
        }
    }

    fn sent(&mut self) {
        self.place = self.place.wrapping_add(1);
    }

    fn set(&mut self, place: usize, byte: u8) -> Result<(), Refusal> {
        put(&mut self.cells, place, byte)
    }
}
