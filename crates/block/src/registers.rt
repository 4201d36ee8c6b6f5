// The registers: what is read, what a write does.
ghost use Rattle.std.specs.Prelude.{◌≡◌, ◌<◌, ◌≤◌, if◌then◌else◌, MatchResult};
ghost use Rattle.refusals.specs.Numbers.{returned};
ghost use Rattle.block.specs.Flags.{status_written};
ghost use Rattle.block.specs.Access.{reset_block, Decodes, word_of, has as has_by, packed as packed_of, control_value, status_value, byte_moves, read_number, reads, refuses_word, two_at_once, task_written, word_written, write_number, written as written_of};

use crate::slots::is_in_byte;
use crate::{Block, Control, IIC0, IICC0, IICCL0, IICF0, IICSE0, Register, SVA0, Status, Task};
use bus::Turn;
use refusals::Refusal;

impl TryFrom<u32> for Register {
    type Error = Refusal;

    ghost try_from_gives = { Decodes };

    fn try_from(offset: u32) -> Result<Self, Refusal> {
        match offset {
            IIC0 => Ok(Register::Iic0),
            IICC0 => Ok(Register::Iicc0),
            SVA0 => Ok(Register::Sva0),
            IICCL0 => Ok(Register::Iiccl0),
            IICSE0 => Ok(Register::Iicse0),
            IICF0 => Ok(Register::Iicf0),
            _ => Err(Refusal::NoSuchRegister),
        }
    }
}

// What a register takes: eight bits.
fn byte_of(value: u32) -> Result<u8, Refusal>
    ensures { MatchResult result (λ byte. byte ≡ value) (λ e. (e ≡ Refusal.BadValue) × (255 < value)) }
{
    u8::try_from(value).map_err(|_| Refusal::BadValue)
}

// A word written into IICC0: the bits that are stored, and the four that act.
// `pub`, since the proofs of block_laws speak of it.
#[derive(Clone, Copy, Debug, PartialEq, Eq, Hash)]
pub struct Word {
    pub control: Control,
    pub lrel0: bool,
    pub wrel0: bool,
    pub stt0: bool,
    pub spt0: bool,
}

// The bit at a place, 7 the highest.
fn has(value: u8, place: u8) -> bool
    requires { place < 8 }
    ensures { result ≡ has_by value place }
{
    value >> place & 1 == 1
}

impl From<u8> for Word {
    ghost from_gives = { λ value word. word ≡ word_of value };

    fn from(value: u8) -> Word {
        Word {
            control: Control {
                iice0: has(value, 7),
                spie0: has(value, 4),
                wtim0: has(value, 3),
                acke0: has(value, 2),
            },
            lrel0: has(value, 6),
            wrel0: has(value, 5),
            stt0: has(value, 1),
            spt0: has(value, 0),
        }
    }
}

impl Word {
    // Two of LREL0, WREL0, STT0 and SPT0 at a time.
    fn is_two_at_once(self) -> bool
        ensures { result ≡ two_at_once self }
    {
        u8::from(self.lrel0) + u8::from(self.wrel0) + u8::from(self.stt0) + u8::from(self.spt0) > 1
    }
}

fn weight(bit: bool, weight: u16) -> u16
    ensures is { result ≡ (if bit then weight else 0) }
    ensures most { result ≤ weight }
{
    if bit { weight } else { 0 }
}

// Eight bits as a number, the highest first. A fold over an array would want a bound on each sum and a second definition.
fn packed(a: bool, b: bool, c: bool, d: bool, e: bool, f: bool, g: bool, h: bool) -> u16
    ensures is { result ≡ packed_of a b c d e f g h }
    ensures most { result ≤ 255 }
{
    let low = weight(e, 8) + (weight(f, 4) + (weight(g, 2) + weight(h, 1)));
    weight(a, 128) + (weight(b, 64) + (weight(c, 32) + (weight(d, 16) + low)))
}

impl Status {
    // What a word written into IICC0 leaves of the flags: with IICE0 = 0 none, with LREL0 two, with WREL0 all but TRC0.
    fn written(self, word: Word) -> Status
        ensures { result ≡ status_written self word }
    {
        if !word.control.iice0 {
            return Status::default();
        }
        if word.lrel0 {
            return Status {
                ald0: self.ald0,
                spd0: self.spd0,
                ..Status::default()
            };
        }
        Status {
            trc0: self.trc0 && !word.wrel0,
            ..self
        }
    }
}

impl Task {
    // What a word written into IICC0 makes of the task.
    fn written(self, word: Word) -> Task
        ensures { result ≡ task_written self word }
    {
        if !word.control.iice0 || word.lrel0 {
            Task::Rest
        } else if word.wrel0 {
            Task::Receive
        } else if word.stt0 {
            Task::Start
        } else if word.spt0 {
            Task::Stop
        } else {
            self
        }
    }
}

impl Block {
    // A block after reset, on a free bus.
    pub fn new() -> Self
        ensures { result ≡ reset_block }
    {
        Block {
            turn: Turn::Free,
            shift: 0,
            task: Task::Rest,
            control: Control::default(),
            status: Status::default(),
            iic0: 0,
            sva0: 0,
            iiccl0: 0,
            iicf0: 0,
        }
    }

    fn control_value(&self) -> u16
        ensures { result ≡ control_value self.now }
    {
        let c = self.control;
        packed(
            c.iice0,
            false,
            false,
            c.spie0,
            c.wtim0,
            c.acke0,
            self.task == Task::Start,
            self.task == Task::Stop,
        )
    }

    fn status_value(&self) -> u16
        ensures { result ≡ status_value self.now.status }
    {
        let s = self.status;
        256 * packed(
            s.msts0, s.ald0, s.exc0, s.coi0, s.trc0, s.ackd0, s.std0, s.spd0,
        )
    }

    fn byte_moves(&self) -> bool
        ensures { result ≡ byte_moves self.now }
    {
        is_in_byte(self.turn) || self.task.has_byte()
    }

    // What a register reads as.
    pub fn read(&self, offset: u32) -> Result<u16, Refusal>
        ensures answer { returned result ≡ read_number self.now offset }
        ensures value { reads self.now offset result }
    {
        match Register::try_from(offset)? {
            Register::Iic0 if self.byte_moves() => Err(Refusal::NotNow),
            Register::Iic0 => Ok(u16::from(self.iic0)),
            Register::Iicc0 => Ok(self.control_value()),
            Register::Sva0 => Ok(u16::from(self.sva0)),
            Register::Iiccl0 => Ok(u16::from(self.iiccl0)),
            Register::Iicse0 => Ok(self.status_value()),
            Register::Iicf0 => Ok(u16::from(self.iicf0)),
        }
    }

    // WREL0, STT0 and SPT0 want their wait, STT0 may be set on a free bus too, and none of them with IICE0 = 0.
    fn refuses(&self, word: Word) -> bool
        ensures { result ≡ refuses_word self.now word }
    {
        let ninth = self.task == Task::NinthWait;
        (word.wrel0 || word.stt0 || word.spt0) && !word.control.iice0
            || (word.wrel0 || word.spt0) && !ninth
            || word.stt0 && self.turn.is_busy() && !ninth
    }

    fn set_control(&mut self, word: Word)
        ensures { self.new ≡ word_written self.old word }
    {
        self.control = word.control;
        self.status = self.status.written(word);
        self.task = self.task.written(word);
    }

    // Writes a register. A refusal alters nothing.
    pub fn write(&mut self, offset: u32, value: u32) -> Result<(), Refusal>
        ensures answer { returned result ≡ write_number self.old offset value }
        ensures after { self.new ≡ written_of self.old offset value }
    {
        match Register::try_from(offset)? {
            Register::Iic0 => {
                let byte = byte_of(value)?;
                if !self.control.iice0 || !self.task.waits() {
                    return Err(Refusal::NotNow);
                }
                self.task = Task::Send(byte);
            }
            Register::Iicc0 => {
                let word = Word::from(byte_of(value)?);
                if word.control.iice0 && !word.control.wtim0 {
                    return Err(Refusal::BadValue);
                }
                if self.refuses(word) {
                    return Err(Refusal::NotNow);
                }
                if word.is_two_at_once() {
                    return Err(Refusal::TwoAtOnce);
                }
                self.set_control(word);
            }
            Register::Sva0 => self.sva0 = byte_of(value)?,
            Register::Iiccl0 => self.iiccl0 = byte_of(value)?,
            Register::Iicse0 => return Err(Refusal::NoSuchRegister),
            Register::Iicf0 => self.iicf0 = byte_of(value)?,
        }
        Ok(())
    }
}
