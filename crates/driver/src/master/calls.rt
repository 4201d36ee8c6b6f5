// What a register master does.
ghost use Rattle.std.specs.Prelude.{◌≡◌, false};
ghost use Rattle.bus.specs.declared.Turn.TheVariants.{Free};
ghost use Rattle.masters.specs.Standings.{idle as idle_standing};
ghost use Rattle.masters.specs.Master as master;
ghost use Rattle.block.specs.Tasks.{offers};
ghost use Rattle.block.specs.Access.{IICSE0 as status_register, read_value};
ghost use Rattle.driving.specs.Driving.{assembled as assembled_block};
ghost use Rattle.driver.specs.Driver.{master_of};

use super::Driver;
use bus::Symbol;
use driving::{Drive, Standing, State, assembled, begin, is_starting, release, status};
use masters::Master;
use orders::{Answer, Bytes, Order, Outcome};
use progress::Finished;
use refusals::Refusal;

impl Driver {
    // An idle master on a free bus: its block reset, with 88H in IICC0.
    pub fn new() -> Driver
        ensures master { master_of result ≡ record { turn = Free; standing = idle_standing } }
        ensures block { result.drive.block ≡ assembled_block }
    {
        Driver {
            drive: Drive {
                block: assembled(),
                order: Order::new(),
                state: State {
                    standing: Standing::Idle,
                    losses: 0,
                    outcome: Outcome::Done,
                    bytes: Bytes::new(),
                },
            },
        }
    }

    fn block_offer(&self) -> Symbol
        ensures { result ≡ offers self.now.drive.block }
    {
        self.drive.block.offer()
    }

    // What IICSE0 reads as.
    pub fn status(&self) -> u16
        ensures { result ≡ read_value self.now.drive.block status_register }
    {
        status(&self.drive.block)
    }
}

impl Master for Driver {
    ghost master = { master_of };

    fn offer(&self) -> Symbol {
        self.block_offer()
    }

    // A P also leaves ALD0 = 0.
    fn hear(&mut self, carried: Symbol)
        ensures after { master_of self.new ≡ master.heard carried (master_of self.old) }
        ensures renewed { carried ≡ Symbol.Stop → self.new.drive.block.status.ald0 ≡ false }
    {
        let tried = is_starting(&self.drive.block);
        self.drive.block.hear(carried);
        self.drive.respond(tried, carried);
        self.drive.clear_loss(carried);
        self.drive.retry();
    }

    // The block too is as at assembly.
    fn free(&mut self)
        ensures after { master_of self.new ≡ master.freed (master_of self.old) }
        ensures block { self.new.drive.block ≡ assembled_block }
    {
        *self = Driver::new();
    }

    fn waits(&self) -> bool {
        matches!(
            self.drive.state.standing,
            Standing::Waiting | Standing::Contending { .. }
        )
    }

    fn place(&mut self, order: Order) -> Result<(), Refusal> {
        let Standing::Idle = self.drive.state.standing else {
            return Err(Refusal::NotIdle);
        };
        self.drive.order = order;
        self.drive.state.losses = 0;
        self.drive.state.standing = Standing::Waiting;
        begin(&mut self.drive.block);
        Ok(())
    }

    // Where an order waits on a free bus, STT0 is set.
    fn withdraw(&mut self) -> Result<(), Refusal> {
        match self.drive.state.standing {
            Standing::Idle | Standing::Answered => Err(Refusal::NotWaiting),
            Standing::Waiting if is_starting(&self.drive.block) => {
                self.drive.state.standing = Standing::Idle;
                release(&mut self.drive.block);
                Ok(())
            }
            Standing::Contending { .. } | Standing::Waiting => Err(Refusal::BusNotFree),
        }
    }

    fn collect(&mut self, buffer: &mut [u8]) -> Result<Answer, Refusal> {
        let Standing::Answered = self.drive.state.standing else {
            return Err(Refusal::NotAnswered);
        };
        let finished = Finished::new(
            self.drive.order,
            self.drive.state.outcome,
            self.drive.state.losses,
            self.drive.state.bytes,
        );
        let answer = finished.collect(buffer)?;
        self.drive.state.standing = Standing::Idle;
        Ok(answer)
    }
}
