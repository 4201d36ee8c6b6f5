// What a line asks of the bench.
mod kind;
mod numbers;
mod segments;

pub(crate) use kind::Kind;
pub use numbers::one_meaning;
use orders::Order;
use refusals::Refusal;

// A call that a line asks for.
#[derive(Clone, Copy)]
pub(crate) enum Command {
    // the order as it was filled, or why it was not
    Place {
        number: u16,
        order: Result<Order, Refusal>,
    },
    Withdraw {
        number: u16,
    },
    Tell {
        number: u16,
        place: u16,
        byte: u8,
    },
    Run {
        slots: u16,
    },
    Collect {
        number: u16,
    },
}
