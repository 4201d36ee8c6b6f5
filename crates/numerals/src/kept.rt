// A line's bytes, as many as can matter.
use array_vec::ArrayVec;

mod ops;

pub use ops::long_lines_are_wrong;

// The first 188 bytes of a line. No line of numbers is so long.
// A struct over its list, so that the number stands here alone, beside the law that it rests on.
#[derive(Drop)]
pub struct Kept {
    list: ArrayVec<u8, 188>,
}
