// Slaves that are built: a gauge and a memory, over one machinery of address and bytes.
#![tactic(auto)]

ghost use Rattle.std.specs.Prelude.{◌≡◌, Ok, Err, is_ok, length, if◌then◌else◌, nat_lt, slice_index};
ghost use Rattle.refusals.specs.declared.Refusal.TheVariants.{NoSuchPlace};
ghost use Rattle.chips.specs.Store.{Store, Rule, stored};
ghost use Rattle.chips.specs.Parts.{is_first, byte_of};

mod devices;
mod makes;
mod parts;
mod wiring;

use parts::Plug;
pub use parts::{Cells, Registers};
use refusals::Refusal;

// A byte that is written to a device: the first since the address, or a later one.
#[derive(Clone, Copy, Debug, PartialEq, Eq, Hash)]
pub enum Written {
    First(u8),
    Later(u8),
}

// What stands behind an address: bytes with a place among them.
pub trait Device {
    ghost rule: { Rule };

    ghost store: { Self → Store };

    // The byte that is read next.
    fn byte(&self) -> u8
        ensures { result ≡ slice_index (store self.now).bytes (store self.now).place };

    // Whether a written byte is acknowledged.
    fn accepts(&self, written: Written) -> bool
        ensures { result ≡ rule.accepts (is_first written) (byte_of written) };

    // What a written byte does.
    fn write(&mut self, written: Written)
        ensures { store self.new ≡ rule.wrote (is_first written) (byte_of written) (store self.old) };

    // What a byte that was read does.
    fn sent(&mut self)
        ensures { store self.new ≡ rule.sent (store self.old) };

    // Sets the byte at a place, if there is one.
    fn set(&mut self, place: usize, byte: u8) -> Result<(), Refusal>
        ensures answer { result ≡ (if nat_lt place (length (store self.old).bytes) then Ok tt else Err NoSuchPlace) }
        ensures after { store self.new ≡ (if is_ok result then stored place byte (store self.old) else store self.old) };
}

// A slave with a seven-bit address over a device.
#[derive(Drop)]
pub struct Chip<D: Device> {
    plug: Plug,
    device: D,
}

pub type Gauge = Chip<Registers>;

pub type Memory = Chip<Cells>;
