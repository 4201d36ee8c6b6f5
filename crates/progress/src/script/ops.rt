// What a contender offers, and how a slot moves it on.
ghost use Rattle.std.specs.Prelude.{◌≡◌};
ghost use Rattle.orders.specs.Fills.{order_of};
ghost use Rattle.scripts.specs.Scripts.{begin as begin_of, offer as offer_of, hear as hear_of, answer as answer_of};
ghost use Rattle.progress.specs.Positions.{next_at};
ghost use Rattle.progress.specs.Meaning.{progress_of, answer_in};

use super::Progress;
use crate::{Finished, Notes, Position, Stage};
use bus::Symbol;
use orders::{Order, Outcome};

impl Progress {
    // Before its first S.
    pub fn begin(order: Order) -> Progress
        ensures progress { progress_of result ≡ begin_of (order_of order) }
        ensures order { result.order ≡ order }
    {
        Progress {
            order,
            position: Position::first(),
            notes: Notes::new(),
        }
    }

    pub fn order(&self) -> Order
        ensures { result ≡ self.now.order }
    {
        self.order
    }

    // What the plan of the order has next.
    pub fn offer(&self) -> Symbol
        ensures { result ≡ offer_of (progress_of self.now).todo }
    {
        let Position {
            segment: number,
            stage,
        } = self.position;
        let segment = self.order.segment(number);
        match stage {
            Stage::Opening => {
                if number < self.order.len() {
                    Symbol::Start
                } else {
                    Symbol::Stop
                }
            }
            Stage::Address { bit } => Symbol::of_bit(segment.address, bit),
            Stage::Direction => segment.direction.into(),
            Stage::Write { byte, bit } => { Symbol::of_bit(self.order.byte(number, byte), bit) }
            Stage::ReadNinth { byte } => Symbol::acknowledge(byte + 1 < segment.count),
            Stage::Closing => Symbol::Stop,
            _ => Symbol::One,
        }
    }

    // Where a slot leads.
    fn next(&self, carried: Symbol) -> Position
        ensures { result ≡ next_at (order_of self.now.order) self.now.position.segment self.now.position.stage carried }
    {
        let position = self.position;
        let segment = self.order.segment(position.segment);
        let stage = match (position.stage, carried) {
            (Stage::Opening, _) if position.segment < self.order.len() => Stage::Address { bit: 6 },
            (Stage::Address { bit: 0 }, _) => Stage::Direction,
            (Stage::Address { bit }, _) => Stage::Address { bit: bit - 1 },
            (Stage::Direction, _) => Stage::AddressNinth,
            (Stage::AddressNinth | Stage::WriteNinth { byte: _ }, Symbol::One) => Stage::Closing,
            (Stage::AddressNinth, _) => return position.resume(segment, 0),
            (Stage::WriteNinth { byte } | Stage::ReadNinth { byte }, _) => {
                return position.resume(segment, byte + 1);
            }
            (Stage::Write { byte, bit: 0 }, _) => Stage::WriteNinth { byte },
            (Stage::Write { byte, bit }, _) => Stage::Write { byte, bit: bit - 1 },
            (Stage::Read { byte, bit: 0 }, _) => Stage::ReadNinth { byte },
            (Stage::Read { byte, bit }, _) => Stage::Read { byte, bit: bit - 1 },
            (Stage::Opening | Stage::Closing | Stage::Over, _) => Stage::Over,
        };
        Position { stage, ..position }
    }

    // A slot carries the symbol: what is noted of it, and where it leads.
    pub fn hear(&mut self, carried: Symbol)
        ensures progress { progress_of self.new ≡ hear_of (progress_of self.old) carried }
        ensures order { self.new.order ≡ self.old.order }
    {
        let next = self.next(carried);
        let segment = self.position.segment;
        let notes = &mut self.notes;
        match (self.position.stage, carried) {
            (Stage::AddressNinth, Symbol::One) => notes.outcome = Outcome::NoAddress { segment },
            (Stage::WriteNinth { byte }, Symbol::One) => {
                notes.outcome = Outcome::NoByte { segment, byte }
            }
            (Stage::Read { byte: _, bit: 0 }, x) => {
                notes.bytes.push(2 * notes.part + x.value());
                notes.part = 0;
            }
            (Stage::Read { byte: _, bit: _ }, x) => notes.part = 2 * notes.part + x.value(),
            _ => {}
        }
        self.position = next;
    }

    // The answer, with the losses that the order had.
    pub fn finish(self, losses: u16) -> Finished
        ensures { answer_in result ≡ answer_of losses (progress_of self) }
    {
        Finished::new(self.order, self.notes.outcome, losses, self.notes.bytes)
    }
}
