// A contender's order with how far it has come.
ghost use Rattle.std.specs.Prelude.{◌≡◌, ◌+◌, ◌<◌, ◌≤◌, true, length};
ghost use Rattle.orders.specs.Held.{held};
ghost use Rattle.orders.specs.Fills.{order_of};
ghost use Rattle.progress.specs.Positions.{sound, part_limit};
ghost use Rattle.progress.specs.Plans.{todo_at, to_come, read_total};

use crate::{Notes, Position};
use orders::Order;

mod ops;

#[derive(Clone, Copy)]
pub struct Progress {
    order: Order,
    position: Position,
    notes: Notes,
    ghost stands: { sound (order_of order) position ≡ true },
    ghost room: { length (held notes.bytes) + to_come (todo_at (order_of order) position.segment position.stage) ≤ read_total (order_of order) },
    ghost fits: { notes.part < part_limit position.stage },
}
