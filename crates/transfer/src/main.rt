// One transfer, followed from the order to the answer: a line master sets a gauge's pointer and reads two of its registers.
#![tactic(auto)]

mod text;

use bench::Bench;
use bus::{Symbol, Turn};
use chips::Gauge;
use line::Line;
use orders::{Order, RawSegment};
use reader::{Word, Words};
use refusals::Refusal;
use text::{Bytes, print_answer, print_slot, print_word};

const ADDRESS: u16 = 72;

const POINTER: u8 = 1;

const READ: u16 = 2;

const REGISTERS: [u8; 4] = [25, 130, 7, 0];

// The slots of the longest contest that there is.
const LONGEST: usize = 329;

// The pointer written, a repeated start, and the registers read.
fn order() -> Result<Order, Refusal> {
    let segments = [
        RawSegment::write(ADDRESS, 1),
        RawSegment::read(ADDRESS, READ),
    ];
    Order::filled(&segments, &[POINTER])
}

// Moves slots until the bus is free again, prints each, and keeps their ranks. `keyed` follows a contest too, but prints no turns.
fn follow(
    rt: &(impl Print + AllocGlobal),
    bench: &mut Bench<Line, Gauge>,
    record: &mut Vec<u8>,
) -> anyhow::Result<()> {
    let mut turn = Turn::Free;
    for number in 1..=LONGEST {
        let rank = bench.step();
        record.push(rank)?;
        let symbol = Symbol::try_from(rank)?;
        print_slot(rt, number, symbol, turn)?;
        turn = turn.next(symbol);
        if !turn.is_busy() {
            break;
        }
    }
    Ok(())
}

// What a reader makes of the slots. A flag: whether a byte is an address byte is told by the word before it alone.
fn read(rt: &(impl Print + AllocGlobal), record: &[u8]) -> anyhow::Result<()> {
    let mut address = false;
    for word in Words::of(record)? {
        print_word(rt, word, address)?;
        address = matches!(word, Word::Start { .. });
    }
    Ok(())
}

fn run(rt: &(impl Print + AllocGlobal)) -> anyhow::Result<()> {
    println!(rt;
        "The gauge at address {ADDRESS} holds{}, its pointer at 0.",
        Bytes(&REGISTERS)
    )?;
    println!(rt; "The order of the line master:")?;
    println!(rt; "  segment 0: write 1 byte to address {ADDRESS}: {POINTER}")?;
    println!(rt; "  segment 1: read {READ} bytes from address {ADDRESS}")?;
    println!(rt; "")?;
    let gauge = Gauge::new(ADDRESS, REGISTERS)?;
    let mut bench = Bench::assemble(Line::new(), gauge);
    bench.place(0, order()?)?;
    println!(rt; "slot symbol rank early late whose   what the slot is")?;
    let mut record = Vec::new(rt.alloc());
    follow(rt, &mut bench, &mut record)?;
    println!(rt; "")?;
    println!(rt;
        "What a reader makes of the {} slots (places count from 0), and the wires:",
        record.len()
    )?;
    read(rt, record.as_slice())?;
    let mut buffer = [0; 32];
    let answer = bench.collect(0, &mut buffer)?;
    println!(rt; "")?;
    print_answer(rt, answer, answer.bytes(&buffer))?;
    Ok(())
}

fn main(rt: HostRuntime) -> anyhow::Result<()> {
    run(&rt)
}
