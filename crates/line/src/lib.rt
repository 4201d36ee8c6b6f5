// The line master: it works the turns directly.
#![tactic(auto)]

ghost use Rattle.std.specs.Prelude.{◌≡◌, cond};
ghost use Rattle.bus.specs.declared.Turn.TheVariants.{Free};
ghost use Rattle.bus.specs.Symbols.{is_stop};
ghost use Rattle.scripts.specs.Scripts.{offer as offer_of};
ghost use Rattle.masters.specs.Standings.{idle as idle_standing, contender_in, lost as lost_of, keeps as keeps_in, becomes as becomes_of, starting as starting_with};
ghost use Rattle.line.specs.Line.{request_of, contender_of, contenders_of, standing_of, master_of};

use bus::{Symbol, Turn};
use masters::Master;
use orders::{Answer, Order};
use progress::{Finished, Progress, one_more};
use refusals::Refusal;

// An order that waits, and how often it has lost.
#[derive(Clone, Copy)]
pub struct Request {
    order: Order,
    losses: u16,
}

// An order on the wires: how often it had lost before, and how far it has come.
#[derive(Clone, Copy)]
pub struct Contender {
    losses: u16,
    progress: Progress,
}

#[derive(Clone, Copy)]
pub enum Standing {
    Idle,
    Waiting(Request),
    Contending(Contender),
    Answered(Finished),
}

// Where the turns are, and how it stands.
#[derive(Clone, Copy)]
pub struct Line {
    turn: Turn,
    standing: Standing,
}

impl Contender {
    fn new(request: Request) -> Contender
        ensures { contender_of result ≡ starting_with (request_of request) }
    {
        Contender {
            losses: request.losses,
            progress: Progress::begin(request.order),
        }
    }

    // Whether it stays in: in a masters' slot if its own offer is carried, in a slaves' if a 0 or a 1 is.
    fn keeps(&self, turn: Turn, carried: Symbol) -> bool
        ensures { result ≡ keeps_in turn carried (offer_of (contender_of self.now).progress.todo) }
    {
        if turn.is_masters() {
            self.progress.offer() == carried
        } else {
            carried.is_bit()
        }
    }

    // It waits again, with one loss more.
    fn lost(self) -> Request
        ensures { request_of result ≡ lost_of (contender_of self).request }
    {
        Request {
            order: self.progress.order(),
            losses: one_more(self.losses),
        }
    }

    // What a slot makes of it: it waits again, is answered, or contends on.
    fn becomes(self, turn: Turn, carried: Symbol) -> Standing
        ensures { standing_of result ≡ becomes_of (keeps_in turn carried (offer_of (contender_of self).progress.todo)) (is_stop carried) (contender_of self) carried }
    {
        match (self.progress, carried) {
            _ if !self.keeps(turn, carried) => Standing::Waiting(self.lost()),
            (mut progress, Symbol::Stop) => {
                progress.hear(carried);
                Standing::Answered(progress.finish(self.losses))
            }
            (mut progress, heard) => {
                progress.hear(heard);
                Standing::Contending(Contender {
                    losses: self.losses,
                    progress,
                })
            }
        }
    }
}

impl Line {
    // An idle master on a free bus.
    pub fn new() -> Line
        ensures { master_of result ≡ record { turn = Free; standing = idle_standing } }
    {
        Line {
            turn: Turn::Free,
            standing: Standing::Idle,
        }
    }

    // Who contends for the next slot: a contender, and on a free bus who waits.
    fn contender(&self) -> Option<Contender>
        ensures { contenders_of result ≡ contender_in self.now.turn (master_of self.now).standing }
    {
        match self.standing {
            Standing::Waiting(request) if !self.turn.is_busy() => Some(Contender::new(request)),
            Standing::Contending(contender) => Some(contender),
            _ => None,
        }
    }
}

impl Master for Line {
    ghost master = { master_of };

    fn offer(&self) -> Symbol {
        self.contender()
            .map_or(Symbol::One, |contender| contender.progress.offer())
    }

    fn hear(&mut self, carried: Symbol) {
        if let Some(contender) = self.contender() {
            self.standing = contender.becomes(self.turn, carried);
        }
        self.turn = self.turn.next(carried);
    }

    fn free(&mut self) {
        *self = Line::new();
    }

    fn waits(&self) -> bool {
        matches!(
            self.standing,
            Standing::Waiting(_) | Standing::Contending(_)
        )
    }

    fn place(&mut self, order: Order) -> Result<(), Refusal> {
        let Standing::Idle = self.standing else {
            return Err(Refusal::NotIdle);
        };
        self.standing = Standing::Waiting(Request { order, losses: 0 });
        Ok(())
    }

    fn withdraw(&mut self) -> Result<(), Refusal> {
        match self.standing {
            Standing::Idle | Standing::Answered(_) => Err(Refusal::NotWaiting),
            Standing::Waiting(_) if !self.turn.is_busy() => {
                self.standing = Standing::Idle;
                Ok(())
            }
            Standing::Waiting(_) | Standing::Contending(_) => Err(Refusal::BusNotFree),
        }
    }

    fn collect(&mut self, buffer: &mut [u8]) -> Result<Answer, Refusal> {
        let Standing::Answered(finished) = self.standing else {
            return Err(Refusal::NotAnswered);
        };
        let answer = finished.collect(buffer)?;
        self.standing = Standing::Idle;
        Ok(answer)
    }
}
