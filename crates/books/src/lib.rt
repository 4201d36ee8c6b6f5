// Books: marks of one kind in memory that a caller lends.
#![tactic(auto)]

ghost use Rattle.std.specs.Prelude.{◌≤◌, length};

mod calls;

// A book of marks, oldest first, over a slice that is lent. It is linear: whoever has one must close it.
// No impl Model: its value would be data, which the slice that is lent, and what its lender has of it in the end, are not.
pub struct Book<'a, T> {
    places: &'a mut [T],
    used: usize,
    ghost within: { used ≤ length places.now },
}
