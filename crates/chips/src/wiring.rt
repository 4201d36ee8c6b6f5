// What a chip offers, and what it makes of a slot.
ghost use Rattle.std.specs.Prelude.{◌≡◌};
ghost use Rattle.bus.specs.Banks.{Single};
ghost use Rattle.bus.specs.Turns.{next};
ghost use Rattle.slaves.specs.Slave.{Heard};
ghost use Rattle.slaves.specs.Machine.{slave_of};
ghost use Rattle.chips.specs.Chips.{port_bit, port_heard, cleared, at_turn, chip_offer, store_bit, chip_step, chip};
ghost use Rattle.chips.specs.Parts.{is_first, byte_of, port_of};
ghost use Rattle.chips.specs.States.{chip_of};
ghost use Rattle.slaves.proofs.Machines.{well};

use crate::parts::Plug;
use crate::{Chip, Device, Written};
use bus::{Symbol, Turn};
use refusals::Refusal;
use slaves::Slaves;

impl Plug {
    // The byte whose ninth slot is next.
    fn written(&self) -> Written
        ensures first { is_first result ≡ self.now.fresh }
        ensures byte { byte_of result ≡ self.now.bits }
    {
        if self.fresh {
            Written::First(self.bits)
        } else {
            Written::Later(self.bits)
        }
    }

    fn take_bit(&mut self, bit: Symbol)
        ensures { port_of self.new ≡ port_bit self.old.turn bit (port_of self.old) }
    {
        match self.turn {
            Turn::Address(n) => {
                if n == 0 {
                    self.addressed = self.bits == self.address;
                }
                self.bits = bit.shifted_into(self.bits);
            }
            Turn::Border => self.bits = bit.value(),
            Turn::Write(_) => self.bits = bit.shifted_into(self.bits),
            Turn::WriteNinth => self.fresh = false,
            _ => {}
        }
    }

    fn clear(&mut self)
        ensures { port_of self.new ≡ cleared (port_of self.old) }
    {
        self.addressed = false;
        self.fresh = true;
        self.bits = 0;
    }

    fn hear(&mut self, carried: Symbol)
        ensures { port_of self.new ≡ at_turn (next self.old.turn carried) (port_heard carried (port_of self.old)) }
    {
        match carried {
            Symbol::Zero | Symbol::One => self.take_bit(carried),
            Symbol::Start | Symbol::Stop => self.clear(),
        }
        self.turn = self.turn.next(carried);
    }
}

impl<D: Device> Chip<D> {
    fn current(&self) -> Symbol
        ensures { result ≡ chip_offer D.Device.rule self.now.plug.turn (port_of self.now.plug) (D.Device.store self.now.device) }
    {
        match self.plug.turn {
            Turn::AddressNinth(_) => Symbol::acknowledge(self.plug.addressed),
            Turn::WriteNinth => Symbol::acknowledge(
                self.plug.addressed && self.device.accepts(self.plug.written()),
            ),
            Turn::Read(n) if self.plug.addressed => Symbol::of_bit(self.device.byte(), n),
            _ => Symbol::One,
        }
    }

    // A byte takes effect with its ninth slot.
    fn pass(&mut self)
        ensures store { D.Device.store self.new.device ≡ store_bit D.Device.rule self.old.plug.turn (port_of self.old.plug) (D.Device.store self.old.device) }
        ensures same { self.new.plug ≡ self.old.plug }
    {
        match self.plug.turn {
            Turn::WriteNinth if self.plug.addressed => self.device.write(self.plug.written()),
            Turn::ReadNinth if self.plug.addressed => self.device.sent(),
            _ => {}
        }
    }

    fn advance(&mut self, carried: Symbol)
        ensures { chip_of D.Device.store self.new ≡ chip_step D.Device.rule (chip_of D.Device.store self.old) (Heard carried) }
    {
        if carried.is_bit() {
            self.pass();
        }
        self.plug.hear(carried);
    }
}

impl<D: Device> Slaves for Chip<D> {
    ghost bank = { λ c. Single (slave_of (chip D.Device.rule) (chip_of D.Device.store c)) };

    ghost polite = { λ c. well (chip D.Device.rule) (chip_of D.Device.store c) };

    fn offer(&self) -> Symbol {
        self.current()
    }

    fn hear(&mut self, carried: Symbol) {
        self.advance(carried);
    }

    fn free(&mut self) {
        self.plug.clear();
        self.plug.turn = Turn::Free;
    }

    fn past(&self, number: usize) -> Option<usize> {
        number.checked_sub(1)
    }

    fn tell(&mut self, number: usize, place: usize, byte: u8) -> Result<(), Refusal> {
        if number != 0 {
            return Err(Refusal::NoSuchNumber);
        }
        if self.plug.turn.is_busy() {
            return Err(Refusal::BusNotFree);
        }
        self.device.set(place, byte)
    }
}
