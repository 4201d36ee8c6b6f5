// How fast the bench of `key` is: ten million slots, by runs of at most 999, both masters given a new order before each.
// What was moved goes to standard output, the slots a second to standard error.
#![tactic(auto)]

use bench::Bench;
use books::Book;
use bus::Pair;
use chips::{Gauge, Memory};
use driver::Driver;
use line::Line;
use orders::{Order, RawSegment};
use refusals::Refusal;
use std::time::{Clock, Instant};

type KeyBench = Bench<Pair<Driver, Line>, Pair<Gauge, Memory>>;

const SLOTS: u64 = 10_000_000;

// Hands over what the last run brought, and gives the master an order again. Before the first run there is no answer.
fn renew(bench: &mut KeyBench, number: usize, order: Order) -> Result<(), Refusal> {
    let mut buffer = [0; 32];
    let _ = bench.collect(number, &mut buffer);
    bench.place(number, order)
}

// One run: how many slots it moved.
fn run(bench: &mut KeyBench, write: Order, read: Order) -> Result<u64, Refusal> {
    renew(bench, 0, write)?;
    renew(bench, 1, read)?;
    let mut places = [0; 999];
    let mut book = Book::new(&mut places);
    let moved = bench.run(999, &mut book);
    let _ = book.close();
    Ok(moved? as u64)
}

// Runs until the slots are moved: how many runs, and how many slots. A `for`, so that it ends even where nothing moves.
fn run_all(bench: &mut KeyBench) -> Result<(u64, u64), Refusal> {
    let write = Order::filled(&[RawSegment::write(80, 32)], &[7; 32])?;
    let read = Order::filled(&[RawSegment::read(72, 32)], &[])?;
    let mut moved = 0u64;
    for runs in 0..SLOTS {
        if moved >= SLOTS {
            return Ok((runs, moved));
        }
        moved = moved.saturating_add(run(bench, write, read)?);
    }
    Ok((SLOTS, moved))
}

fn measure(rt: &(impl Print + Eprint + Clock)) -> anyhow::Result<()> {
    let masters = Pair {
        left: Driver::new(),
        right: Line::new(),
    };
    let slaves = Pair {
        left: Gauge::new(72, [25, 130, 7, 0])?,
        right: Memory::new(80)?,
    };
    let mut bench = Bench::assemble(masters, slaves);
    let start = Instant::now(rt)?;
    let (runs, moved) = run_all(&mut bench)?;
    let micros = start.elapsed(rt)?.as_micros();
    println!(rt; "{moved} slots in {runs} runs")?;
    if let Some(rate) = (u128::from(moved) * 1_000_000).checked_div(micros) {
        eprintln!(rt; "{rate} slots a second")?;
    }
    Ok(())
}

fn main(rt: HostRuntime) -> anyhow::Result<()> {
    measure(&rt)
}
