// What a call returns: 0 where it is done, else the number of a refusal.
#![tactic(auto)]

ghost use Rattle.std.specs.Prelude.{◌≡◌, Some};
ghost use Rattle.refusals.specs.Numbers.{number as number_of, returned as returned_by};
ghost use Rattle.refusals.specs.Texts.{told};

use std::error::Error;
use std::fmt;

// Why a call is refused. A refused call alters nothing.
#[derive(Clone, Copy, Debug, PartialEq, Eq, Hash)]
pub enum Refusal {
    // an order of no segment, or of more than 4
    SegmentCount,
    // an address outside 8 to 119
    BadAddress,
    // a direction that is neither 0 nor 1
    BadDirection,
    // a read of no bytes
    EmptyRead,
    // more than 32 bytes in all
    TooManyBytes,
    // not as many write bytes as the write counts say
    WriteBytes,
    // no master or slave of that number
    NoSuchNumber,
    // place: the master has an order or an answer
    NotIdle,
    // withdraw: the master is idle or answered
    NotWaiting,
    // withdraw, tell: a contest is under way
    BusNotFree,
    // collect: there is no answer
    NotAnswered,
    // collect: the buffer has fewer than 32 bytes
    ShortBuffer,
    // tell: the slave has no byte at that place
    NoSuchPlace,
    // run: more than 999 slots
    LongRun,
    // a register access: no such offset, or a write to IICSE0
    NoSuchRegister,
    // a register access: a value over FFH, or IICE0 = 1 with WTIM0 = 0
    BadValue,
    // a register access that has to wait for its time
    NotNow,
    // a register access: two of LREL0, WREL0, STT0, SPT0 at a time
    TwoAtOnce,
    // a line that the program does not take
    BadLine,
    // a record's slot, at that place, against the turns
    AgainstTurns { place: usize },
    // a record that ends in a contest
    Unfinished,
    // a book with too few places left
    FullBook,
}

impl Refusal {
    pub fn number(self) -> u8
        ensures { result ≡ number_of self }
    {
        match self {
            Refusal::SegmentCount => 1,
            Refusal::BadAddress => 2,
            Refusal::BadDirection => 3,
            Refusal::EmptyRead => 4,
            Refusal::TooManyBytes => 5,
            Refusal::WriteBytes => 6,
            Refusal::NoSuchNumber => 7,
            Refusal::NotIdle => 8,
            Refusal::NotWaiting => 9,
            Refusal::BusNotFree => 10,
            Refusal::NotAnswered => 11,
            Refusal::ShortBuffer => 12,
            Refusal::NoSuchPlace => 13,
            Refusal::LongRun => 14,
            Refusal::NoSuchRegister => 15,
            Refusal::BadValue => 16,
            Refusal::NotNow => 17,
            Refusal::TwoAtOnce => 18,
            Refusal::BadLine => 19,
            Refusal::AgainstTurns { place: _ } => 20,
            Refusal::Unfinished => 21,
            Refusal::FullBook => 22,
        }
    }
}

impl fmt::Display for Refusal {
    ghost output = { λ e. Some (told e) };

    fn fmt<W: fmt::Write>(&self, f: &mut fmt::Formatter<W>) -> fmt::Result {
        write!(f, "refused with {}", self.number())
    }
}

impl Error for Refusal {}

// What a call returned: 0, or its refusal's number.
pub fn returned<T: Drop>(res: Result<T, Refusal>) -> u8
    ensures { result ≡ returned_by res }
{
    res.map_or_else(Refusal::number, |_| 0)
}
