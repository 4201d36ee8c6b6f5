// Parts that are driven slot by slot; the slots of others on the bus are given.
use block::Block;
use bus::Symbol;
use driver::Driver;
use masters::Master;

pub(crate) trait Part {
    fn offer(&self) -> Symbol;

    fn hear(&mut self, carried: Symbol);
}

impl Part for Block {
    fn offer(&self) -> Symbol {
        Block::offer(self)
    }

    fn hear(&mut self, carried: Symbol) {
        Block::hear(self, carried)
    }
}

impl Part for Driver {
    fn offer(&self) -> Symbol {
        Master::offer(self)
    }

    fn hear(&mut self, carried: Symbol) {
        Master::hear(self, carried)
    }
}

// Slots that carry what the part offers.
pub(crate) fn hear_own<P: Part>(part: &mut P, slots: u8) {
    for _ in 0..slots {
        let own = part.offer();
        part.hear(own);
    }
}

// The lowest bits of a byte, so many of them.
pub(crate) fn hear_bits<P: Part>(part: &mut P, byte: u8, bits: u8) {
    for place in (0..bits).rev() {
        part.hear(Symbol::of_bit(byte, place));
    }
}
