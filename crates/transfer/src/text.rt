// What the program prints.
use bus::{Symbol, Turn};
use orders::Answer;
use reader::Word;
use std::{fmt, io};

// What the next slot is, where the turns stand there.
#[derive(Drop)]
struct Slot(Turn);

impl fmt::Display for Slot {
    fn fmt<W: fmt::Write>(&self, f: &mut fmt::Formatter<W>) -> fmt::Result {
        match self.0 {
            Turn::Free => write!(f, "free bus"),
            Turn::Address(0) => write!(f, "address byte, direction"),
            Turn::Address(n) => write!(f, "address byte, bit {n}"),
            Turn::AddressNinth(_) => write!(f, "address byte, ninth"),
            Turn::Border => write!(f, "border, or write byte, bit 7"),
            Turn::Write(n) => write!(f, "write byte, bit {n}"),
            Turn::WriteNinth => write!(f, "write byte, ninth"),
            Turn::Read(n) => write!(f, "read byte, bit {n}"),
            Turn::ReadNinth => write!(f, "read byte, ninth"),
            Turn::ClosingBorder => write!(f, "closing border"),
        }
    }
}

pub fn print_slot(rt: &impl Print, number: usize, symbol: Symbol, turn: Turn) -> io::Result<()> {
    let whose = if turn.is_masters() {
        "masters"
    } else {
        "slaves"
    };
    println!(rt;
        "{number:>4} {symbol:<6} {:<4} {:<5} {:<4} {whose:<7} {}",
        symbol.rank(),
        symbol.early(),
        symbol.late(),
        Slot(turn)
    )
}

// SDA over a slot: as SCL rises, then in the early and in the late half of its high time.
#[derive(Drop)]
struct Wave(Symbol);

impl fmt::Display for Wave {
    fn fmt<W: fmt::Write>(&self, f: &mut fmt::Formatter<W>) -> fmt::Result {
        match self.0 {
            Symbol::Zero => write!(f, "___"),
            Symbol::Stop => write!(f, "__-"),
            Symbol::Start => write!(f, "--_"),
            Symbol::One => write!(f, "---"),
        }
    }
}

// SCL and SDA over some slots: three marks a slot, low SCL and the two halves of high SCL.
fn draw(rt: &(impl Print + AllocGlobal), ranks: &[u8]) -> anyhow::Result<()> {
    let heap = rt.alloc();
    let mut clock = String::new(heap);
    let mut data = String::new(heap);
    for rank in ranks {
        clock.push_str("_--")?;
        write!(data, "{}", Wave(Symbol::try_from(*rank)?))?;
    }
    println!(rt; "        SCL {clock}")?;
    println!(rt; "        SDA {data}")?;
    Ok(())
}

pub fn print_word(
    rt: &(impl Print + AllocGlobal),
    word: Word,
    address: bool,
) -> anyhow::Result<()> {
    match word {
        Word::Start { place } => {
            println!(rt; "  {place:>3} start")?;
            draw(rt, &[Symbol::Start.rank()])
        }
        Word::Stop { place } => {
            println!(rt; "  {place:>3} stop")?;
            draw(rt, &[Symbol::Stop.rank()])
        }
        Word::Byte { place, slots } => {
            let heard = if reader::acknowledged(slots) {
                "acknowledged"
            } else {
                "not acknowledged"
            };
            if address {
                println!(rt;
                    "  {place:>3} address {} {}, {heard}",
                    reader::address(slots),
                    reader::direction(slots)
                )?;
            } else {
                println!(rt; "  {place:>3} byte {}, {heard}", reader::value(slots))?;
            }
            draw(rt, slots)
        }
    }
}

// Bytes, a space before each.
#[derive(Drop)]
pub struct Bytes<'a>(pub &'a [u8]);

impl fmt::Display for Bytes<'_> {
    fn fmt<W: fmt::Write>(&self, f: &mut fmt::Formatter<W>) -> fmt::Result {
        for byte in self.0 {
            write!(f, " {byte}")?;
        }
        Ok(())
    }
}

// `keyed` and `swap` print answers in other forms.
pub fn print_answer(rt: &impl Print, answer: Answer, bytes: &[u8]) -> io::Result<()> {
    let outcome = answer.outcome;
    println!(rt;
        "The answer: outcome {}, segment {}, byte {}, losses {}, {} bytes read:{}",
        outcome.number(),
        outcome.segment(),
        outcome.byte(),
        answer.losses,
        answer.count,
        Bytes(bytes)
    )
}
