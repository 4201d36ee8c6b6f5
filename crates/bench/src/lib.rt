// A bench of masters and slaves, its six calls, and the law of contests. A call of `law::holds` brings the theorem; it does nothing.
#![tactic(auto)]

ghost use Rattle.std.specs.Prelude.{◌≡◌, [], ◌∷◌, ◌+◌, ◌-◌, ◌≤◌, length};
ghost use Rattle.books.specs.Marks.{marked, left, Grows};
ghost use Rattle.bus.specs.Symbols.{rank as rank_of};
ghost use Rattle.bus.specs.Banks.{All};
ghost use Rattle.masters.specs.Master as m;
ghost use Rattle.slaves.specs.Slave as s;
ghost use Rattle.slaves.specs.Slave.{Well};
ghost use Rattle.bench.specs.Benches.{model};
ghost use Rattle.law.specs.Model.{assembled, carried, moved, run_slots, ran};
ghost use Rattle.law.specs.Calls.{Place, Withdraw, Tell, Step, Run, Collect, does, moves, ranks, grown, run_answer};
ghost use Rattle.law.specs.Law.{Always, Continues};

use books::Book;
use bus::Symbol;
use masters::Masters;
use orders::{Answer, Order};
use refusals::Refusal;
use slaves::Slaves;

// Masters and slaves on one bus. No impl Model: it would hide the two fields, which `take_apart` gives back as they are.
#[derive(Drop)]
pub struct Bench<M: Masters, S: Slaves> {
    masters: M,
    slaves: S,
}

impl<M: Masters, S: Slaves> Bench<M, S> {
    // The slaves keep to the turns: the law of their interface, as a fact at hand.
    fn keeps_to_the_turns(slaves: &S)
        ensures { All Well (S.Slaves.bank slaves.now) }
    {}

    // What each call does stands in a function of its own, which the prover closes by itself; the call adds the law.
    fn joined(mut masters: M, mut slaves: S) -> Self
        ensures { model M.Masters S.Slaves result ≡ assembled (M.Masters.bank masters) (S.Slaves.bank slaves) }
    {
        masters.free();
        slaves.free();
        Bench { masters, slaves }
    }

    // Moves one slot: all hear what it carries.
    fn slot(&mut self) -> Symbol
        ensures symbol { result ≡ carried (model M.Masters S.Slaves self.old) }
        ensures after { model M.Masters S.Slaves self.new ≡ moved (model M.Masters S.Slaves self.old) }
    {
        let symbol = self.slaves.offer().lesser(self.masters.offer());
        self.masters.hear(symbol);
        self.slaves.hear(symbol);
        symbol
    }

    fn slot_rank(&mut self) -> u8
        ensures rank { result ≡ rank_of (carried (model M.Masters S.Slaves self.old)) }
        ensures after { model M.Masters S.Slaves self.new ≡ moved (model M.Masters S.Slaves self.old) }
    {
        self.slot().rank()
    }

    fn put(&mut self, number: usize, order: Order) -> Result<(), Refusal>
        ensures answer { result ≡ m.place_answer number (model M.Masters S.Slaves self.old).masters }
        ensures after { model M.Masters S.Slaves self.new ≡ does (Place number order) (model M.Masters S.Slaves self.old) }
    {
        self.masters.place(number, order)
    }

    fn take_back(&mut self, number: usize) -> Result<(), Refusal>
        ensures answer { result ≡ m.withdraw_answer number (model M.Masters S.Slaves self.old).masters }
        ensures after { model M.Masters S.Slaves self.new ≡ does (Withdraw number) (model M.Masters S.Slaves self.old) }
    {
        self.masters.withdraw(number)
    }

    fn set(&mut self, number: usize, place: usize, byte: u8) -> Result<(), Refusal>
        ensures answer { result ≡ s.told number place (model M.Masters S.Slaves self.old).slaves }
        ensures after { model M.Masters S.Slaves self.new ≡ does (Tell number place byte) (model M.Masters S.Slaves self.old) }
    {
        self.slaves.tell(number, place, byte)
    }

    fn hand_over(&mut self, number: usize, buffer: &mut [u8]) -> Result<Answer, Refusal>
        ensures answer { result ≡ m.collect_answer number (length buffer.old) (model M.Masters S.Slaves self.old).masters }
        ensures bytes { buffer.new ≡ m.collect_into number buffer.old (model M.Masters S.Slaves self.old).masters }
        ensures after { model M.Masters S.Slaves self.new ≡ does (Collect number (length buffer.old)) (model M.Masters S.Slaves self.old) }
    {
        self.masters.collect(number, buffer)
    }

    // Moves one slot and marks its rank.
    fn mark_slot(&mut self, book: &mut Book<u8>)
        requires { book.old.used + 1 ≤ length book.old.places.now }
        ensures after { model M.Masters S.Slaves self.new ≡ moved (model M.Masters S.Slaves self.old) }
        ensures grows { Grows book.old book.new (rank_of (carried (model M.Masters S.Slaves self.old)) ∷ []) }
    {
        let slot = self.slot_rank();
        let _ = book.mark(slot);
    }

    // Moves slots until there are `n`, or nobody waits, and marks their ranks; a book with room for them.
    fn run_slots(&mut self, n: usize, book: &mut Book<u8>) -> usize
        requires { book.old.used + n ≤ length book.old.places.now }
        ensures count { result ≡ length (run_slots n (model M.Masters S.Slaves self.old)) }
        ensures after { model M.Masters S.Slaves self.new ≡ ran n (model M.Masters S.Slaves self.old) }
        ensures grows { Grows book.old book.new (ranks (run_slots n (model M.Masters S.Slaves self.old))) }
    {
        for k in 0..n {
            if !self.masters.waits() {
                return k;
            }
            self.mark_slot(book);
        }
        n
    }

    fn run_within(&mut self, n: usize, book: &mut Book<u8>) -> Result<usize, Refusal>
        ensures answer { result ≡ run_answer n (left book.old) (model M.Masters S.Slaves self.old) }
        ensures after { model M.Masters S.Slaves self.new ≡ does (Run n (left book.old)) (model M.Masters S.Slaves self.old) }
        ensures grows { Grows book.old book.new (ranks (moves (Run n (left book.old)) (model M.Masters S.Slaves self.old))) }
    {
        if n > 999 {
            return Err(Refusal::LongRun);
        }
        if book.left() < n {
            return Err(Refusal::FullBook);
        }
        Ok(self.run_slots(n, book))
    }

    // Puts masters and slaves on one free bus. The law of contests holds of every list of calls from here.
    pub fn assemble(masters: M, slaves: S) -> Self
        ensures made { model M.Masters S.Slaves result ≡ assembled (M.Masters.bank masters) (S.Slaves.bank slaves) }
        ensures law { Always (model M.Masters S.Slaves result) }
    {
        law::holds();
        Self::keeps_to_the_turns(&slaves);
        Bench::joined(masters, slaves)
    }

    // Moves one slot, and returns its rank.
    pub fn step(&mut self) -> u8
        ensures rank { result ≡ rank_of (carried (model M.Masters S.Slaves self.old)) }
        ensures after { model M.Masters S.Slaves self.new ≡ does Step (model M.Masters S.Slaves self.old) }
        ensures law { Continues (model M.Masters S.Slaves self.old) Step (result ∷ []) (model M.Masters S.Slaves self.new) }
    {
        law::holds();
        self.slot_rank()
    }

    // Moves slots until there are `n`, or the bus is free and nobody waits; marks their ranks, and says how many.
    pub fn run(&mut self, n: usize, book: &mut Book<u8>) -> Result<usize, Refusal>
        ensures answer { result ≡ run_answer n (left book.old) (model M.Masters S.Slaves self.old) }
        ensures after { model M.Masters S.Slaves self.new ≡ does (Run n (left book.old)) (model M.Masters S.Slaves self.old) }
        ensures grows { Grows book.old book.new (ranks (moves (Run n (left book.old)) (model M.Masters S.Slaves self.old))) }
        ensures law { Continues (model M.Masters S.Slaves self.old) (Run n (left book.old)) (grown (marked book.old) (marked book.new)) (model M.Masters S.Slaves self.new) }
    {
        law::holds();
        self.run_within(n, book)
    }

    // Gives an order to the master with this number, if it is idle.
    pub fn place(&mut self, number: usize, order: Order) -> Result<(), Refusal>
        ensures answer { result ≡ m.place_answer number (model M.Masters S.Slaves self.old).masters }
        ensures after { model M.Masters S.Slaves self.new ≡ does (Place number order) (model M.Masters S.Slaves self.old) }
        ensures law { Continues (model M.Masters S.Slaves self.old) (Place number order) [] (model M.Masters S.Slaves self.new) }
    {
        law::holds();
        self.put(number, order)
    }

    // Makes the master with this number idle, if it waits and the bus is free.
    pub fn withdraw(&mut self, number: usize) -> Result<(), Refusal>
        ensures answer { result ≡ m.withdraw_answer number (model M.Masters S.Slaves self.old).masters }
        ensures after { model M.Masters S.Slaves self.new ≡ does (Withdraw number) (model M.Masters S.Slaves self.old) }
        ensures law { Continues (model M.Masters S.Slaves self.old) (Withdraw number) [] (model M.Masters S.Slaves self.new) }
    {
        law::holds();
        self.take_back(number)
    }

    // Sets one byte of the slave with this number, if the bus is free.
    pub fn tell(&mut self, number: usize, place: usize, byte: u8) -> Result<(), Refusal>
        ensures answer { result ≡ s.told number place (model M.Masters S.Slaves self.old).slaves }
        ensures after { model M.Masters S.Slaves self.new ≡ does (Tell number place byte) (model M.Masters S.Slaves self.old) }
        ensures law { Continues (model M.Masters S.Slaves self.old) (Tell number place byte) [] (model M.Masters S.Slaves self.new) }
    {
        law::holds();
        self.set(number, place, byte)
    }

    // Hands over the answer of the master with this number, once; the bytes read go to the front of the buffer.
    pub fn collect(&mut self, number: usize, buffer: &mut [u8]) -> Result<Answer, Refusal>
        ensures answer { result ≡ m.collect_answer number (length buffer.old) (model M.Masters S.Slaves self.old).masters }
        ensures bytes { buffer.new ≡ m.collect_into number buffer.old (model M.Masters S.Slaves self.old).masters }
        ensures after { model M.Masters S.Slaves self.new ≡ does (Collect number (length buffer.old)) (model M.Masters S.Slaves self.old) }
        ensures law { Continues (model M.Masters S.Slaves self.old) (Collect number (length buffer.old)) [] (model M.Masters S.Slaves self.new) }
    {
        law::holds();
        self.hand_over(number, buffer)
    }

    // Takes the bench apart.
    pub fn take_apart(self) -> (M, S)
        ensures { (result.0 ≡ self.masters) × (result.1 ≡ self.slaves) }
    {
        let Bench { masters, slaves } = self;
        (masters, slaves)
    }
}
