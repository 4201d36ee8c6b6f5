// What the register master does after a slot.
ghost use Rattle.std.specs.Prelude.{◌≡◌};
ghost use Rattle.orders.specs.Fills.{order_of};
ghost use Rattle.progress.specs.Positions.{here};
ghost use Rattle.driving.specs.States.{known_of, Led};
ghost use Rattle.driving.specs.Driving.{address_byte_of, block_past, standing_past, block_on, standing_on, ninth_block, ninth_known, going_block, going_known, out_known, entered, failed, lost as lost_of, heard_block, heard_known, loss_cleared, retried};

use crate::access::{Flag, begin, end, moved_byte, receive, renew, send, shows};
use crate::{Drive, Phase, Standing, State};
use block::Block;
use bus::{Direction, Symbol};
use orders::{Bytes, Order, Outcome};
use progress::one_more;

impl Phase {
    // A contender in this phase.
    fn at(self, segment: u8, byte: u8) -> Standing
        ensures { result ≡ Standing.Contending self segment byte }
    {
        Standing::Contending {
            phase: self,
            segment,
            byte,
        }
    }
}

// The steps take block, order and state one by one: some want a block alone, and callers may keep the three apart.

// The address byte of a segment.
fn address_byte(order: &Order, segment: u8) -> u8
    ensures { result ≡ address_byte_of (here (order_of order.now) segment) }
{
    let wanted = order.segment(segment);
    2 * wanted.address + Symbol::from(wanted.direction).value()
}

// An S before the next segment, or P.
fn go_past(block: &mut Block, order: &Order, segment: u8) -> Standing
    ensures block { block.new ≡ block_past (order_of order.now) segment block.old }
    ensures standing { result ≡ standing_past (order_of order.now) segment }
{
    let next = u16::from(segment) + 1;
    if next < u16::from(order.len()) {
        begin(block);
        Phase::Opening.at(next as u8, 0)
    } else {
        end(block);
        Phase::Stopping.at(segment, 0)
    }
}

// Answers the wait: with that byte of the segment, or with what comes after the segment.
fn go_on(block: &mut Block, order: &Order, segment: u8, byte: u16) -> Standing
    ensures block { block.new ≡ block_on (order_of order.now) segment byte block.old }
    ensures standing { result ≡ standing_on (order_of order.now) segment byte }
{
    let wanted = order.segment(segment);
    let count = u16::from(wanted.count);
    if byte >= count {
        return go_past(block, order, segment);
    }
    let next = byte as u8;
    match wanted.direction {
        Direction::Read => {
            receive(block, byte + 1 < count);
            Phase::Read.at(segment, next)
        }
        Direction::Write => {
            send(block, order.byte(segment, next));
            Phase::Write.at(segment, next)
        }
    }
}

// A ninth slot was heard, and IIC0 has the byte that was moved.
fn ninth(
    block: &mut Block,
    order: &Order,
    state: &mut State,
    phase: Phase,
    segment: u8,
    byte: u8,
    moved: u8,
)
    requires { moved ≡ block.old.iic0 }
    ensures block { block.new ≡ ninth_block (order_of order.now) phase segment byte block.old }
    ensures known { known_of state.new ≡ ninth_known (order_of order.now) phase segment byte block.old (known_of state.old) }
{
    match phase {
        Phase::Address if shows(block, Flag::Ackd0) => {
            state.standing = go_on(block, order, segment, 0);
        }
        Phase::Address => {
            end(block);
            state.fail(segment, Outcome::NoAddress { segment });
        }
        Phase::Write if shows(block, Flag::Ackd0) => {
            state.standing = go_on(block, order, segment, u16::from(byte) + 1);
        }
        Phase::Write => {
            end(block);
            state.fail(segment, Outcome::NoByte { segment, byte });
        }
        Phase::Read => {
            state.bytes.push(moved);
            state.standing = go_on(block, order, segment, u16::from(byte) + 1);
        }
        Phase::Opening | Phase::Stopping => {}
    }
}

// MSTS0 = 1 still. IIC0 is refused while a byte moves, and so tells its end.
fn go(block: &mut Block, order: &Order, state: &mut State, phase: Phase, segment: u8, byte: u8)
    ensures block { block.new ≡ going_block (order_of order.now) phase segment byte block.old }
    ensures known { known_of state.new ≡ going_known (order_of order.now) phase segment byte block.old (known_of state.old) }
{
    match phase {
        Phase::Opening => {
            send(block, address_byte(order, segment));
            state.standing = Phase::Address.at(segment, 0);
        }
        Phase::Stopping => {}
        Phase::Address | Phase::Write | Phase::Read => {
            if let Some(moved) = moved_byte(block) {
                ninth(block, order, state, phase, segment, byte, moved);
            }
        }
    }
}

impl State {
    // One loss more; 999 stay 999.
    fn lose(&mut self)
        ensures { known_of self.new ≡ lost_of (known_of self.old) }
    {
        self.losses = one_more(self.losses);
        self.standing = Standing::Waiting;
    }

    // MSTS0 = 0: its P was carried, or it lost.
    fn leave(&mut self, phase: Phase, carried: Symbol)
        ensures { known_of self.new ≡ out_known phase carried (known_of self.old) }
    {
        match (phase, carried) {
            (Phase::Stopping, Symbol::Stop) => self.standing = Standing::Answered,
            _ => self.lose(),
        }
    }

    // Its S was carried on a free bus.
    fn enter(&mut self)
        ensures { known_of self.new ≡ entered (known_of self.old) }
    {
        self.standing = Phase::Address.at(0, 0);
        self.outcome = Outcome::Done;
        self.bytes = Bytes::new();
    }

    // Nobody acknowledged: only its P is left.
    fn fail(&mut self, segment: u8, outcome: Outcome)
        ensures { known_of self.new ≡ failed (known_of self.old) outcome segment }
    {
        self.standing = Phase::Stopping.at(segment, 0);
        self.outcome = outcome;
    }
}

// The block has heard a slot; `tried` says whether STT0 was set before it.
pub fn respond(block: &mut Block, order: &Order, state: &mut State, tried: bool, carried: Symbol)
    ensures block { block.new ≡ heard_block (order_of order.now) tried carried state.old.standing block.old }
    ensures known { known_of state.new ≡ heard_known (order_of order.now) tried carried state.old.standing block.old (known_of state.old) }
{
    match state.standing {
        Standing::Waiting if !tried => {}
        Standing::Waiting if shows(block, Flag::Msts0) => {
            send(block, address_byte(order, 0));
            state.enter();
        }
        Standing::Waiting => state.lose(),
        Standing::Contending {
            phase,
            segment,
            byte,
        } if shows(block, Flag::Msts0) => {
            go(block, order, state, phase, segment, byte);
        }
        Standing::Contending { phase, .. } => state.leave(phase, carried),
        Standing::Idle | Standing::Answered => {}
    }
}

// At a P that finds ALD0 = 1: IICE0 0, then 1.
pub fn clear_loss(block: &mut Block, carried: Symbol)
    ensures { block.new ≡ loss_cleared carried block.old }
{
    if carried == Symbol::Stop && shows(block, Flag::Ald0) {
        renew(block);
    }
}

// Who waits tries STT0, which a busy bus refuses.
pub fn retry(block: &mut Block, standing: Standing)
    ensures { block.new ≡ retried standing block.old }
{
    if standing == Standing::Waiting {
        begin(block);
    }
}

// The same three, of a drive; its order stands.
impl Drive {
    pub fn respond(&mut self, tried: bool, carried: Symbol)
        ensures { Led self.old self.new
            (heard_block (order_of self.old.order) tried carried (known_of self.old.state).standing self.old.block)
            (heard_known (order_of self.old.order) tried carried (known_of self.old.state).standing self.old.block (known_of self.old.state)) }
    {
        respond(
            &mut self.block,
            &self.order,
            &mut self.state,
            tried,
            carried,
        );
    }

    pub fn clear_loss(&mut self, carried: Symbol)
        ensures { Led self.old self.new (loss_cleared carried self.old.block) (known_of self.old.state) }
    {
        clear_loss(&mut self.block, carried);
    }

    pub fn retry(&mut self)
        ensures { Led self.old self.new (retried (known_of self.old.state).standing self.old.block) (known_of self.old.state) }
    {
        retry(&mut self.block, self.state.standing);
    }
}
