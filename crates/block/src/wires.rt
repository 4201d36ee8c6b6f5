// What the block offers, and what a slot does to it.
ghost use Rattle.std.specs.Prelude.{◌≡◌};
ghost use Rattle.block.specs.Tasks.{offers, contest_offer};
ghost use Rattle.block.specs.Heard.{task_after, shift_after, heard as heard_of};

use crate::slots::{is_ninth, place};
use crate::{Block, Task};
use bus::Symbol;

impl Block {
    // The ninth slot's acknowledgement, or the bit of the byte in IIC0 that is due.
    fn contest_offer(&self) -> Symbol
        ensures { result ≡ contest_offer self.now self.now.task }
    {
        if !self.status.msts0 {
            return Symbol::One;
        }
        if is_ninth(self.turn) {
            return Symbol::acknowledge(!self.status.trc0 && self.control.acke0);
        }
        match self.task {
            Task::Send(byte) if self.status.trc0 => Symbol::of_bit(byte, place(self.turn)),
            _ => Symbol::One,
        }
    }

    // What the block offers to the next slot.
    pub fn offer(&self) -> Symbol
        ensures { result ≡ offers self.now }
    {
        if !self.control.iice0 {
            return Symbol::One;
        }
        match self.task {
            Task::Start => Symbol::Start,
            Task::Stop => Symbol::Stop,
            Task::StartWait | Task::NinthWait => Symbol::One,
            Task::Rest | Task::Send(_) | Task::Receive => self.contest_offer(),
        }
    }

    fn task_after(&self, x: Symbol) -> Task
        ensures { result ≡ task_after self.now x }
    {
        if self.loses(x) {
            return Task::Rest;
        }
        if self.starts_by(x) {
            return Task::StartWait;
        }
        if !x.is_bit() {
            return Task::Rest;
        }
        if is_ninth(self.turn) {
            return if self.status.msts0 {
                Task::NinthWait
            } else {
                Task::Rest
            };
        }
        if self.task.has_byte() {
            self.task
        } else {
            Task::Rest
        }
    }

    fn shift_after(&self, x: Symbol) -> u8
        ensures { result ≡ shift_after self.now x }
    {
        if x.is_bit() && self.turn.is_busy() && !is_ninth(self.turn) {
            x.shifted_into(self.shift)
        } else {
            0
        }
    }

    // The next slot carried the symbol. A 1 in an unanswered wait belongs to no byte.
    pub fn hear(&mut self, x: Symbol)
        ensures { self.new ≡ heard_of self.old x }
    {
        if x == Symbol::One && self.task.waits() {
            return;
        }
        let status = self.status_after(x);
        let task = self.task_after(x);
        let shift = self.shift_after(x);
        if x.is_bit() && is_ninth(self.turn) {
            self.iic0 = self.shift;
        }
        self.shift = shift;
        self.status = status;
        self.task = task;
        self.turn = self.turn.next(x);
    }
}
