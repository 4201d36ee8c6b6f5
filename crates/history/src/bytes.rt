// Bytes as marks.
ghost use Rattle.std.specs.Prelude.{◌<◌};

mod marks;

// A number of eight bits, in the order of numbers.
#[derive(Clone, Copy, Debug, PartialEq, Eq, PartialOrd, Ord, Hash)]
pub struct Byte {
    value: u8,
    ghost small: { value < 256 },
}
