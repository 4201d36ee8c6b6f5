// The flags of IICSE0 after a slot, one by one: each has a condition of its own that sets it, and one that clears it.
ghost use Rattle.std.specs.Prelude.{◌≡◌};
ghost use Rattle.block.specs.Flags.{own_start, loss, is_extension, flag as flag_of, flags_after, no_flags, status_after};

use crate::slots::{
    AFTER_READ, AFTER_WRITE, EIGHTH_OF_ADDRESS, FIRST_OF_ADDRESS, is_first_of_data, is_ninth,
};
use crate::{Block, Status};
use bus::Symbol;

// A flag afterwards: a set condition wins over a clear one.
fn flag(set: bool, clear: bool, before: bool) -> bool
    ensures { result ≡ flag_of set clear before }
{
    set || (before && !clear)
}

// Whether the top four bits of an address byte are 0000 or 1111.
fn is_extension(address: u8) -> bool
    ensures { result ≡ is_extension address }
{
    address < 0x10 || address > 0xEF
}

impl Block {
    // In a masters' slot anything but its own offer is a loss, in a slaves' slot an S or a P.
    pub(crate) fn loses(&self, x: Symbol) -> bool
        ensures { result ≡ loss self.now x }
    {
        self.status.msts0 && self.offer() != x && (self.turn.is_masters() || !x.is_bit())
    }

    pub(crate) fn starts_by(&self, x: Symbol) -> bool
        ensures { result ≡ own_start self.now x }
    {
        x == Symbol::Start && self.offer() == Symbol::Start
    }

    fn msts0_after(&self, x: Symbol) -> bool
        ensures { result ≡ (flags_after self.now x).msts0 }
    {
        let set = self.starts_by(x);
        let clear = x == Symbol::Stop || self.loses(x);
        flag(set, clear, self.status.msts0)
    }

    fn ald0_after(&self, x: Symbol) -> bool
        ensures { result ≡ (flags_after self.now x).ald0 }
    {
        self.loses(x) || self.status.ald0
    }

    fn exc0_after(&self, x: Symbol) -> bool
        ensures { result ≡ (flags_after self.now x).exc0 }
    {
        let set = x.is_bit()
            && self.turn == EIGHTH_OF_ADDRESS
            && is_extension(x.shifted_into(self.shift));
        let clear = !x.is_bit();
        flag(set, clear, self.status.exc0)
    }

    fn coi0_after(&self, x: Symbol) -> bool
        ensures { result ≡ (flags_after self.now x).coi0 }
    {
        let set = x.is_bit()
            && self.turn == EIGHTH_OF_ADDRESS
            && x.shifted_into(self.shift) / 2 == self.sva0 / 2;
        let clear = !x.is_bit();
        flag(set, clear, self.status.coi0)
    }

    fn trc0_after(&self, x: Symbol) -> bool
        ensures { result ≡ (flags_after self.now x).trc0 }
    {
        let own_bit = x.is_bit() && self.status.msts0;
        let set = self.starts_by(x) || own_bit && self.turn == AFTER_WRITE;
        let clear = own_bit && self.turn == AFTER_READ || x == Symbol::Stop || self.loses(x);
        flag(set, clear, self.status.trc0)
    }

    fn ackd0_after(&self, x: Symbol) -> bool
        ensures { result ≡ (flags_after self.now x).ackd0 }
    {
        let set = x == Symbol::Zero && is_ninth(self.turn);
        let first = x.is_bit() && (self.turn == FIRST_OF_ADDRESS || is_first_of_data(self.turn));
        let clear = first || x == Symbol::Stop;
        flag(set, clear, self.status.ackd0)
    }

    fn std0_after(&self, x: Symbol) -> bool
        ensures { result ≡ (flags_after self.now x).std0 }
    {
        let set = x == Symbol::Start;
        let clear = x.is_bit() && is_first_of_data(self.turn) || x == Symbol::Stop;
        flag(set, clear, self.status.std0)
    }

    fn spd0_after(&self, x: Symbol) -> bool
        ensures { result ≡ (flags_after self.now x).spd0 }
    {
        let set = x == Symbol::Stop;
        let clear = x.is_bit() && self.turn == FIRST_OF_ADDRESS;
        flag(set, clear, self.status.spd0)
    }

    fn flags_after(&self, x: Symbol) -> Status
        ensures { result ≡ flags_after self.now x }
    {
        Status {
            msts0: self.msts0_after(x),
            ald0: self.ald0_after(x),
            exc0: self.exc0_after(x),
            coi0: self.coi0_after(x),
            trc0: self.trc0_after(x),
            ackd0: self.ackd0_after(x),
            std0: self.std0_after(x),
            spd0: self.spd0_after(x),
        }
    }

    // IICE0 = 0 holds all eight at 0.
    pub(crate) fn status_after(&self, x: Symbol) -> Status
        ensures { result ≡ status_after self.now x }
    {
        if self.control.iice0 {
            self.flags_after(x)
        } else {
            Status::default()
        }
    }
}
