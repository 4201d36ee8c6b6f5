// A block, an order, and how far it has come in it.
ghost use Rattle.std.specs.Prelude.{◌≤◌};
ghost use Rattle.orders.specs.Fills.{order_of};
ghost use Rattle.progress.specs.Plans.{read_total};
ghost use Rattle.driving.specs.States.{known_of};
ghost use Rattle.driving_laws.specs.Agreement.{Sound};
ghost use Rattle.driving_laws.specs.Meaning.{standing_of, read_most};

use driving::Drive;

mod calls;

#[derive(Clone, Copy)]
pub struct Driver {
    drive: Drive,
    ghost sound: { Sound (order_of drive.order) (known_of drive.state) drive.block },
    ghost room: { read_most (standing_of (order_of drive.order) (known_of drive.state) drive.block) ≤ read_total (order_of drive.order) },
}
