// Contests of two masters on a bench with a gauge at 72 and a memory at 80, all bytes 0.
use crate::Tally;
use bench::Bench;
use bus::{Pair, Symbol, Turn};
use chips::{Gauge, Memory};
use masters::Masters;
use orders::{Order, RawSegment};
use refusals::returned;
use std::alloc::AllocError;

// The slots of the longest contest that there is.
const LONGEST: usize = 329;

// An order of one segment.
#[derive(Clone, Copy)]
pub enum Ask {
    Write { address: u16, bytes: &'static [u8] },
    Read { address: u16, count: u16 },
}

// The orders of master 0 and 1, the ranks of the first contest, and what each master then hands over (11 where it has no answer).
#[derive(Clone, Copy)]
pub struct Question {
    pub what: &'static str,
    pub first: Ask,
    pub second: Option<Ask>,
    pub expected: &'static str,
}

pub const QUESTIONS: [Question; 7] = [
    Question {
        what: "72 write against 72 read",
        first: Ask::Write {
            address: 72,
            bytes: &[],
        },
        second: Some(Ask::Read {
            address: 72,
            count: 1,
        }),
        expected: "2 3 0 0 3 0 0 0 0 0 1 | 0 0 0 0 0 0 | 11",
    },
    Question {
        what: "to 80, [0] against [0, 200]",
        first: Ask::Write {
            address: 80,
            bytes: &[0],
        },
        second: Some(Ask::Write {
            address: 80,
            bytes: &[0, 200],
        }),
        expected: "2 3 0 3 0 0 0 0 0 0 0 0 0 0 0 0 0 0 0 1 | 0 0 0 0 0 0 | 11",
    },
    Question {
        what: "to 80, [0] against [0, 7]",
        first: Ask::Write {
            address: 80,
            bytes: &[0],
        },
        second: Some(Ask::Write {
            address: 80,
            bytes: &[0, 7],
        }),
        expected: "2 3 0 3 0 0 0 0 0 0 0 0 0 0 0 0 0 0 0 0 0 0 0 0 3 3 3 0 1 | 11 | 0 0 0 0 0 0",
    },
    Question {
        what: "reading one byte against two at 72",
        first: Ask::Read {
            address: 72,
            count: 1,
        },
        second: Some(Ask::Read {
            address: 72,
            count: 2,
        }),
        expected: "2 3 0 0 3 0 0 0 3 0 0 0 0 0 0 0 0 0 0 0 0 0 0 0 0 0 0 3 1 | 11 | 0 0 0 0 0 2 0 0",
    },
    Question {
        what: "equal orders",
        first: Ask::Read {
            address: 72,
            count: 1,
        },
        second: Some(Ask::Read {
            address: 72,
            count: 1,
        }),
        expected: "2 3 0 0 3 0 0 0 3 0 0 0 0 0 0 0 0 0 3 1 | 0 0 0 0 0 1 0 | 0 0 0 0 0 1 0",
    },
    Question {
        what: "nobody at 81",
        first: Ask::Write {
            address: 81,
            bytes: &[],
        },
        second: None,
        expected: "2 3 0 3 0 0 0 3 0 3 1 | 0 1 0 0 0 0 | 11",
    },
    Question {
        what: "gauge written 4",
        first: Ask::Write {
            address: 72,
            bytes: &[4],
        },
        second: None,
        expected: "2 3 0 0 3 0 0 0 0 0 0 0 0 0 0 3 0 0 3 1 | 0 2 0 0 0 0 | 11",
    },
];

impl Ask {
    pub fn order(self) -> anyhow::Result<Order> {
        let order = match self {
            Ask::Write { address, bytes } => {
                let count = u16::try_from(bytes.len())?;
                Order::filled(&[RawSegment::write(address, count)], bytes)?
            }
            Ask::Read { address, count } => {
                Order::filled(&[RawSegment::read(address, count)], &[])?
            }
        };
        Ok(order)
    }
}

// The ranks of the next contest, and a bar. `transfer` follows a contest too, but prints each slot as it comes.
fn contest<M: Masters>(
    bench: &mut Bench<M, Pair<Gauge, Memory>>,
    text: &mut String,
) -> anyhow::Result<()> {
    let mut turn = Turn::Free;
    for _ in 0..LONGEST {
        let rank = bench.step();
        write!(text, "{rank} ")?;
        turn = turn.next(Symbol::try_from(rank)?);
        if !turn.is_busy() {
            break;
        }
    }
    write!(text, "|")?;
    Ok(())
}

// What a master hands over: 0 and its answer, or the number of the refusal. `swap` and `transfer` print answers in other forms.
fn handed<M: Masters>(
    bench: &mut Bench<M, Pair<Gauge, Memory>>,
    number: usize,
    text: &mut String,
) -> Result<(), AllocError> {
    let mut buffer = [0; 32];
    match bench.collect(number, &mut buffer) {
        Ok(answer) => {
            let outcome = answer.outcome;
            write!(
                text,
                " 0 {} {} {} {} {}",
                outcome.number(),
                outcome.segment(),
                outcome.byte(),
                answer.losses,
                answer.count
            )?;
            for byte in answer.bytes(&buffer) {
                write!(text, " {byte}")?;
            }
            Ok(())
        }
        Err(refusal) => write!(text, " {}", refusal.number()),
    }
}

// The first contest of the two orders.
pub fn compare<A: Masters + Drop, B: Masters + Drop>(
    rt: &(impl Print + AllocGlobal),
    tally: &mut Tally,
    makes: &str,
    left: A,
    right: B,
    question: Question,
) -> anyhow::Result<()> {
    let slaves = Pair {
        left: Gauge::new(72, [0; 4])?,
        right: Memory::new(80)?,
    };
    let mut bench = Bench::assemble(Pair { left, right }, slaves);
    bench.place(0, question.first.order()?)?;
    if let Some(ask) = question.second {
        bench.place(1, ask.order()?)?;
    }
    let mut came = String::new(rt.alloc());
    contest(&mut bench, &mut came)?;
    handed(&mut bench, 0, &mut came)?;
    write!(came, " |")?;
    handed(&mut bench, 1, &mut came)?;
    Ok(tally.show(rt, makes, question.expected, came.as_str())?)
}

// What an order returns that writes so many bytes to an address, of which none are given.
fn filled(address: u16, count: u16) -> u8 {
    returned(Order::filled(&[RawSegment::write(address, count)], &[]))
}

fn made(address: u16) -> u8 {
    returned(Gauge::new(address, [0; 4]))
}

pub fn refusals(rt: &(impl Print + AllocGlobal), tally: &mut Tally) -> anyhow::Result<()> {
    let heap = rt.alloc();
    let orders = format!(in heap;
        "{} {} {} {}",
        filled(7, 0),
        filled(8, 0),
        filled(119, 0),
        filled(120, 0)
    )?;
    let slaves = format!(in heap; "{} {} {} {}", made(7), made(8), made(119), made(120))?;
    let bytes = format!(in heap; "{}", filled(80, 33))?;
    tally.show(rt, "an order to 7, 8, 119, 120", "2 0 0 2", orders.as_str())?;
    tally.show(rt, "a slave at 7, 8, 119, 120", "2 0 0 2", slaves.as_str())?;
    Ok(tally.show(rt, "33 bytes", "5", bytes.as_str())?)
}
