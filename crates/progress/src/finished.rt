// An answer that waits to be collected.
ghost use Rattle.std.specs.Prelude.{◌≤◌, length};
ghost use Rattle.orders.specs.Held.{held};
ghost use Rattle.orders.specs.Fills.{order_of};
ghost use Rattle.progress.specs.Plans.{read_total};

use orders::{Bytes, Order, Outcome};

mod collect;

// The order, and its answer, which has no more bytes than the order reads.
#[derive(Clone, Copy)]
pub struct Finished {
    order: Order,
    outcome: Outcome,
    losses: u16,
    bytes: Bytes,
    ghost whole: { length (held bytes) ≤ read_total (order_of order) },
}
