// What the nine slots of a byte say: eight bits, the highest first, and the acknowledgement.
ghost use Rattle.std.specs.Prelude.{◌≡◌};
ghost use Rattle.reader.specs.Bytes.{bit as bit_of, value_of, acknowledges, address_of, direction_of};

use crate::{ONE, ZERO};
use bus::Direction;

// What a slot of that rank counts as a bit.
fn bit(rank: u8) -> u8
    ensures { result ≡ bit_of rank }
{
    u8::from(rank == ONE)
}

// The value of a byte.
pub fn value(slots: &[u8; 9]) -> u8
    ensures { result ≡ value_of slots.now }
{
    let [b7, b6, b5, b4, b3, b2, b1, b0, _ack] = slots;
    128 * bit(*b7)
        + 64 * bit(*b6)
        + 32 * bit(*b5)
        + 16 * bit(*b4)
        + 8 * bit(*b3)
        + 4 * bit(*b2)
        + 2 * bit(*b1)
        + bit(*b0)
}

// Whether a byte is acknowledged: its ninth slot carries 0.
pub fn acknowledged(slots: &[u8; 9]) -> bool
    ensures { result ≡ acknowledges slots.now }
{
    let [_b7, _b6, _b5, _b4, _b3, _b2, _b1, _b0, ack] = slots;
    *ack == ZERO
}

// The address in an address byte: all its bits but the last.
pub fn address(slots: &[u8; 9]) -> u8
    ensures { result ≡ address_of slots.now }
{
    value(slots) / 2
}

// The direction in an address byte.
pub fn direction(slots: &[u8; 9]) -> Direction
    ensures { result ≡ direction_of slots.now }
{
    let [_a6, _a5, _a4, _a3, _a2, _a1, _a0, read, _ack] = slots;
    if *read == ONE {
        Direction::Read
    } else {
        Direction::Write
    }
}
