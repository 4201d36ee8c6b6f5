// The public call that makes each output line.
ghost use Rattle.std.specs.Prelude.{◌≡◌, ℕ, List, [], ◌∷◌, IfOk, string_bytes};
ghost use Rattle.refusals.specs.Numbers.{returned as returned_by};
ghost use Rattle.orders.specs.declared.RawSegment.{RawSegment as Raw};
ghost use Rattle.orders.specs.Fills.{Filled};
ghost use Rattle.numerals.specs.Lines.{text as text_of};
ghost use Rattle.bench.specs.Benches.{model};
ghost use Rattle.law.specs.Calls.{final};
ghost use Rattle.key_lines.specs.declared.commands.Command.TheVariants.{Place};
ghost use Rattle.key_lines.specs.Commands.{Command as Asked, place as asks_place, run as asks_run, collect as asks_collect};
ghost use Rattle.key_lines.specs.Replies.{reply, after as afterwards, Answers, Alters, ByACall};
ghost use Rattle.key_lines.specs.Readings.{Fits, calls};

use super::Session;
use crate::commands::{Command, Kind};
use crate::replies::{answer_reply, short_reply, wrong_line};
use bench::Bench;
use books::Book;
use masters::Masters;
use numerals::text;
use orders::Order;
use refusals::{Refusal, returned};
use slaves::Slaves;
use std::alloc::{AllocError, Global};

// The heap comes with each line and is no field: `new` and `end` take and hand back a bench alone.
// The clauses spell out `model M.Masters S.Slaves`, since any short name for it needs the same two members.
impl<M: Masters, S: Slaves> Session<M, S> {
    pub fn new(bench: Bench<M, S>) -> Self
        ensures { result.bench ≡ bench }
    {
        Session { bench }
    }

    // Hands the bench back.
    pub fn end(self) -> Bench<M, S>
        ensures { result ≡ self.bench }
    {
        let Session { bench } = self;
        bench
    }

    // Places an order, unless it was refused.
    fn place(&mut self, number: u16, order: Result<Order, Refusal>) -> Result<(), Refusal>
        ensures answer { (ss : List Raw) (bs : List ℕ) → Filled order ss bs → 1 ∷ (number ∷ (returned_by result ∷ [])) ≡ reply (asks_place number ss bs) (model M.Masters S.Slaves self.old.bench) }
        ensures after { (ss : List Raw) (bs : List ℕ) → Filled order ss bs → model M.Masters S.Slaves self.new.bench ≡ afterwards (asks_place number ss bs) (model M.Masters S.Slaves self.old.bench) }
        ensures call { model M.Masters S.Slaves self.new.bench ≡ final (model M.Masters S.Slaves self.old.bench) (calls (Place number order)) }
    {
        self.bench.place(usize::from(number), order?)
    }

    fn run(&mut self, heap: Global, slots: u16) -> Result<String, AllocError>
        ensures answer { IfOk result (λ s. string_bytes s ≡ text_of (reply (asks_run slots) (model M.Masters S.Slaves self.old.bench))) }
        ensures after { model M.Masters S.Slaves self.new.bench ≡ afterwards (asks_run slots) (model M.Masters S.Slaves self.old.bench) }
    {
        // room for every run that a line can ask for, lent to a book as the bench wants it
        let mut places = [0u8; 999];
        let mut book = Book::new(&mut places);
        let moved = self.bench.run(usize::from(slots), &mut book);
        let used = book.close();
        text(
            heap,
            Kind::Run.number(),
            &[slots, u16::from(returned(moved))],
            &places[..used],
        )
    }

    fn collect(&mut self, heap: Global, number: u16) -> Result<String, AllocError>
        ensures answer { IfOk result (λ s. string_bytes s ≡ text_of (reply (asks_collect number) (model M.Masters S.Slaves self.old.bench))) }
        ensures after { model M.Masters S.Slaves self.new.bench ≡ afterwards (asks_collect number) (model M.Masters S.Slaves self.old.bench) }
    {
        // room for all that an order can read
        let mut buffer = [0u8; 32];
        match self.bench.collect(usize::from(number), &mut buffer) {
            Ok(answer) => answer_reply(heap, number, answer, &buffer),
            Err(refusal) => short_reply(heap, Kind::Collect, number, Err(refusal)),
        }
    }

    fn carry_out(&mut self, heap: Global, command: Command) -> Result<String, AllocError>
        ensures answer { IfOk result (λ s. (c : Asked) → Fits command c → string_bytes s ≡ text_of (reply c (model M.Masters S.Slaves self.old.bench))) }
        ensures after { (c : Asked) → Fits command c → model M.Masters S.Slaves self.new.bench ≡ afterwards c (model M.Masters S.Slaves self.old.bench) }
        ensures call { model M.Masters S.Slaves self.new.bench ≡ final (model M.Masters S.Slaves self.old.bench) (calls command) }
    {
        match command {
            Command::Place { number, order } => {
                let placed = self.place(number, order);
                short_reply(heap, Kind::Place, number, placed)
            }
            Command::Withdraw { number } => {
                let withdrawn = self.bench.withdraw(usize::from(number));
                short_reply(heap, Kind::Withdraw, number, withdrawn)
            }
            Command::Tell {
                number,
                place,
                byte,
            } => {
                let told = self
                    .bench
                    .tell(usize::from(number), usize::from(place), byte);
                short_reply(heap, Kind::Tell, number, told)
            }
            Command::Run { slots } => self.run(heap, slots),
            Command::Collect { number } => self.collect(heap, number),
        }
    }

    // The output line for an input line. Want of memory costs the text alone: the bench is then as it is after that line.
    pub fn answer(&mut self, heap: Global, line: &[u8]) -> Result<String, AllocError>
        ensures answer { IfOk result (λ s. Answers line.now (model M.Masters S.Slaves self.old.bench) (string_bytes s)) }
        ensures after { Alters line.now (model M.Masters S.Slaves self.old.bench) (model M.Masters S.Slaves self.new.bench) }
        ensures call { ByACall (model M.Masters S.Slaves self.old.bench) (model M.Masters S.Slaves self.new.bench) }
    {
        match Command::of_line(line) {
            Some(command) => self.carry_out(heap, command),
            None => wrong_line(heap),
        }
    }
}
