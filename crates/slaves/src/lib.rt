// Slaves by their meaning, and banks of them.
#![tactic(auto)]

ghost use Rattle.std.specs.Prelude.{◌≡◌};
ghost use Rattle.bus.specs.Banks.{Bank, Both, All, each, beyond};
ghost use Rattle.slaves.specs.Slave.{Slave, Heard, Freed, befallen, Well, offered, told, tell};

use bus::{Pair, Symbol};
use refusals::Refusal;

// One slave or several on a bus. Any part that keeps this meaning may sit there.
pub trait Slaves {
    // what each slave means, by its number
    ghost bank: { Self → Bank Slave };

    // What goes onto the wires in the next slot.
    fn offer(&self) -> Symbol
        ensures { result ≡ offered (bank self.now) };

    // A slot carries the symbol.
    fn hear(&mut self, carried: Symbol)
        ensures { bank self.new ≡ each (befallen (Heard carried)) (bank self.old) };

    // Counts the bus as free, as at assembly; bytes, pointers and places are kept.
    fn free(&mut self)
        ensures { bank self.new ≡ each (befallen Freed) (bank self.old) };

    // The number less the count of the slaves, if it is that of none of them.
    fn past(&self, number: usize) -> Option<usize>
        ensures { result ≡ beyond number (bank self.now) };

    // Sets one byte of the slave with this number.
    fn tell(&mut self, number: usize, place: usize, byte: u8) -> Result<(), Refusal>
        ensures answer { result ≡ told number place (bank self.old) }
        ensures after { bank self.new ≡ tell number place byte (bank self.old) };

    ghost polite: { (s : Self) → All Well (bank s) };
}

impl<A: Slaves, B: Slaves> Slaves for Pair<A, B> {
    ghost bank = { λ p. Both (A.Slaves.bank p.left) (B.Slaves.bank p.right) };

    ghost polite = { λ p. (A.Slaves.polite p.left, B.Slaves.polite p.right) };

    fn offer(&self) -> Symbol {
        self.left.offer().lesser(self.right.offer())
    }

    fn hear(&mut self, carried: Symbol) {
        self.left.hear(carried);
        self.right.hear(carried);
    }

    fn free(&mut self) {
        self.left.free();
        self.right.free();
    }

    fn past(&self, number: usize) -> Option<usize> {
        let rest = self.left.past(number)?;
        self.right.past(rest)
    }

    fn tell(&mut self, number: usize, place: usize, byte: u8) -> Result<(), Refusal> {
        match self.left.past(number) {
            None => self.left.tell(number, place, byte),
            Some(rest) => self.right.tell(rest, place, byte),
        }
    }
}
