// Masters by their meaning, and banks of them.
#![tactic(auto)]

ghost use Rattle.std.specs.Prelude.{◌≡◌, ◌==◌, if◌then◌else◌, Ok, Err, length};
ghost use Rattle.bus.specs.Banks.{Bank, Single, Both, each, beyond};
ghost use Rattle.orders.specs.Fills.{order_of};
ghost use Rattle.masters.specs.Standings.{is_waiting};
ghost use Rattle.masters.specs.Master as model;
ghost use Rattle.masters.specs.Master.{offered, heard, freed, somebody_waits, place_answer, place, withdraw_answer, withdraw, collect_answer, collect, collect_into};

use bus::{Pair, Symbol};
use orders::{Answer, Order};
use refusals::Refusal;

// One master. Any make that keeps this meaning may contend.
pub trait Master {
    ghost master: { Self → model.Master };

    // What goes onto the wires in the next slot.
    fn offer(&self) -> Symbol
        ensures { result ≡ model.offers (master self.now) };

    // A slot carries the symbol.
    fn hear(&mut self, carried: Symbol)
        ensures { master self.new ≡ heard carried (master self.old) };

    // Makes it idle on a free bus, as at assembly.
    fn free(&mut self)
        ensures { master self.new ≡ freed (master self.old) };

    // Whether an order waits; a contender counts as waiting.
    fn waits(&self) -> bool
        ensures { result ≡ is_waiting (master self.now).standing };

    // Gives it an order, if it is idle.
    fn place(&mut self, order: Order) -> Result<(), Refusal>
        ensures answer { result ≡ model.place_one (master self.old).standing }
        ensures after { master self.new ≡ model.placing (order_of order) (master self.old) };

    // Makes it idle, if it waits on a free bus.
    fn withdraw(&mut self) -> Result<(), Refusal>
        ensures answer { result ≡ model.withdraw_one (master self.old).turn (master self.old).standing }
        ensures after { master self.new ≡ model.withdrawing (master self.old) };

    // Hands over its answer and makes it idle; the bytes read go to the front of the buffer.
    fn collect(&mut self, buffer: &mut [u8]) -> Result<Answer, Refusal>
        ensures answer { result ≡ model.collect_one (length buffer.old) (master self.old).standing }
        ensures bytes { buffer.new ≡ model.filled buffer.old (master self.old).standing }
        ensures after { master self.new ≡ model.collecting (length buffer.old) (master self.old) };
}

// One master or several on a bus. What slaves do too has no trait of its own in `bus`: no crate may implement another's trait for every T: Master.
pub trait Masters {
    // what each master means, by its number
    ghost bank: { Self → Bank model.Master };

    // What goes onto the wires in the next slot.
    fn offer(&self) -> Symbol
        ensures { result ≡ offered (bank self.now) };

    // A slot carries the symbol.
    fn hear(&mut self, carried: Symbol)
        ensures { bank self.new ≡ each (heard carried) (bank self.old) };

    // Makes each master idle on a free bus, as at assembly.
    fn free(&mut self)
        ensures { bank self.new ≡ each freed (bank self.old) };

    // Whether somebody waits or contends.
    fn waits(&self) -> bool
        ensures { result ≡ somebody_waits (bank self.now) };

    // The number less the count of the masters, if it is that of none of them.
    fn past(&self, number: usize) -> Option<usize>
        ensures { result ≡ beyond number (bank self.now) };

    // Gives an order to the master with this number, if it is idle.
    fn place(&mut self, number: usize, order: Order) -> Result<(), Refusal>
        ensures answer { result ≡ place_answer number (bank self.old) }
        ensures after { bank self.new ≡ place number (order_of order) (bank self.old) };

    // Makes the master with this number idle, if it waits on a free bus.
    fn withdraw(&mut self, number: usize) -> Result<(), Refusal>
        ensures answer { result ≡ withdraw_answer number (bank self.old) }
        ensures after { bank self.new ≡ withdraw number (bank self.old) };

    // Hands over the answer of the master with this number and makes it idle; the bytes read go to the front of the buffer.
    fn collect(&mut self, number: usize, buffer: &mut [u8]) -> Result<Answer, Refusal>
        ensures answer { result ≡ collect_answer number (length buffer.old) (bank self.old) }
        ensures bytes { buffer.new ≡ collect_into number buffer.old (bank self.old) }
        ensures after { bank self.new ≡ collect number (length buffer.old) (bank self.old) };
}

// Of a single master the number is 0.
fn only(number: usize) -> Result<(), Refusal>
    ensures { result ≡ (if number == 0 then Ok tt else Err Refusal.NoSuchNumber) }
{
    match number {
        0 => Ok(()),
        _ => Err(Refusal::NoSuchNumber),
    }
}

// Each master is a bank of one.
impl<M: Master> Masters for M {
    ghost bank = { λ m. Single (M.Master.master m) };

    fn offer(&self) -> Symbol {
        Master::offer(self)
    }

    fn hear(&mut self, carried: Symbol) {
        Master::hear(self, carried);
    }

    fn free(&mut self) {
        Master::free(self);
    }

    fn waits(&self) -> bool {
        Master::waits(self)
    }

    fn past(&self, number: usize) -> Option<usize> {
        number.checked_sub(1)
    }

    fn place(&mut self, number: usize, order: Order) -> Result<(), Refusal> {
        only(number)?;
        Master::place(self, order)
    }

    fn withdraw(&mut self, number: usize) -> Result<(), Refusal> {
        only(number)?;
        Master::withdraw(self)
    }

    fn collect(&mut self, number: usize, buffer: &mut [u8]) -> Result<Answer, Refusal> {
        only(number)?;
        Master::collect(self, buffer)
    }
}

impl<A: Masters, B: Masters> Masters for Pair<A, B> {
    ghost bank = { λ p. Both (A.Masters.bank p.left) (B.Masters.bank p.right) };

    fn offer(&self) -> Symbol {
        self.left.offer().lesser(self.right.offer())
    }

    fn hear(&mut self, carried: Symbol) {
        self.left.hear(carried);
        self.right.hear(carried);
    }

    fn free(&mut self) {
        self.left.free();
        self.right.free();
    }

    fn waits(&self) -> bool {
        self.left.waits() || self.right.waits()
    }

    fn past(&self, number: usize) -> Option<usize> {
        let rest = self.left.past(number)?;
        self.right.past(rest)
    }

    fn place(&mut self, number: usize, order: Order) -> Result<(), Refusal> {
        match self.left.past(number) {
            None => self.left.place(number, order),
            Some(rest) => self.right.place(rest, order),
        }
    }

    fn withdraw(&mut self, number: usize) -> Result<(), Refusal> {
        match self.left.past(number) {
            None => self.left.withdraw(number),
            Some(rest) => self.right.withdraw(rest),
        }
    }

    fn collect(&mut self, number: usize, buffer: &mut [u8]) -> Result<Answer, Refusal> {
        match self.left.past(number) {
            None => self.left.collect(number, buffer),
            Some(rest) => self.right.collect(rest, buffer),
        }
    }
}
