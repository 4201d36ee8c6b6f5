// What the chips hold.
ghost use Rattle.std.specs.Prelude.{◌<◌};

use bus::Turn;

// A gauge's four byte registers and its pointer. Device is implemented once for each of the two: over one struct of [u8; N], gauge and memory of the same N would be one type, with one rule.
#[derive(Drop)]
pub struct Registers {
    pub(crate) registers: [u8; 4],
    pub(crate) pointer: u8,
    ghost low: { pointer < 4 },
}

// A memory's 256 cells and its place.
#[derive(Drop)]
pub struct Cells {
    pub(crate) cells: [u8; 256],
    pub(crate) place: u8,
}

// What a chip keeps of the bus: whether it was addressed, whether no byte was written since, and the bits of the byte so far.
// Two flags: an address alone sets `addressed` and leaves `fresh`, a written byte clears `fresh` of a chip that was not addressed too.
#[derive(Drop)]
pub struct Plug {
    pub(crate) address: u8,
    pub(crate) turn: Turn,
    pub(crate) addressed: bool,
    pub(crate) fresh: bool,
    pub(crate) bits: u8,
}
