// Lists of at most so many items, in fixed memory.
#![tactic(auto)]

ghost use Rattle.std.specs.Prelude.{◌≡◌, ◌≤◌, length};

mod ops;

// At most N items, oldest first. It is Copy where its items are, as an order and an answer are.
#[derive(Copy)]
pub struct ArrayVec<T, const N: usize> {
    places: [T; N],
    used: usize,
    ghost within: { used ≤ N },
    ghost sized: { length places ≡ N },
}
