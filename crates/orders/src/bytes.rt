// Up to 32 bytes: as many as an order has at most.
ghost use Rattle.std.specs.Prelude.{◌≡◌, true};
ghost use Rattle.array_vec.specs.Items.{items_of};
ghost use Rattle.orders.specs.Tests.{every, is_byte};

use array_vec::ArrayVec;

mod ops;

#[derive(Clone, Copy)]
pub struct Bytes {
    list: ArrayVec<u8, 32>,
    ghost small: { every is_byte (items_of list) ≡ true },
}
