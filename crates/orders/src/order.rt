// The order that a caller holds.
ghost use Rattle.std.specs.Prelude.{◌≡◌, true, length};
ghost use Rattle.array_vec.specs.Items.{items_of};
ghost use Rattle.orders.specs.Held.{held};
ghost use Rattle.orders.specs.Tests.{every};
ghost use Rattle.orders.specs.Tables.{meaning, lawful, inside};

use crate::{Bytes, Segment};
use array_vec::ArrayVec;

mod fill;
mod parts;

// A lawful order: its segments and the bytes that they write. Whoever holds one holds a lawful one.
#[derive(Clone, Copy)]
pub struct Order {
    segments: ArrayVec<Segment, 4>,
    bytes: Bytes,
    ghost there: { every (inside (length (held bytes))) (items_of segments) ≡ true },
    ghost kept: { lawful (meaning (items_of segments) (held bytes)) ≡ true },
}
