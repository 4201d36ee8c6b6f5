// What an outcome says in numbers, and which bytes an answer read.
ghost use Rattle.std.specs.Prelude.{◌≡◌, take};
ghost use Rattle.orders.specs.Answers.{outcome_number, segment_at_fault, byte_at_fault};

use crate::{Answer, Outcome};

impl Outcome {
    // 0 done, 1 an address, 2 a byte was not acknowledged.
    pub fn number(self) -> u8
        ensures { result ≡ outcome_number self }
    {
        match self {
            Outcome::Done => 0,
            Outcome::NoAddress { .. } => 1,
            Outcome::NoByte { .. } => 2,
        }
    }

    // The segment at fault, 0 if none is.
    pub fn segment(self) -> u8
        ensures { result ≡ segment_at_fault self }
    {
        match self {
            Outcome::Done => 0,
            Outcome::NoAddress { segment } | Outcome::NoByte { segment, .. } => segment,
        }
    }

    // The byte at fault, 0 if none is or an address.
    pub fn byte(self) -> u8
        ensures { result ≡ byte_at_fault self }
    {
        match self {
            Outcome::NoByte { byte, .. } => byte,
            _ => 0,
        }
    }
}

impl Answer {
    // The bytes read, of the buffer that they went into: all of it, where it is shorter.
    pub fn bytes(self, buffer: &[u8]) -> &[u8]
        ensures { result.now ≡ take self.count buffer.now }
    {
        buffer.get(..usize::from(self.count)).unwrap_or(buffer)
    }
}
