// Two masters and their orders on a bench with a gauge and a memory.
use crate::cases::Case;
use bench::Bench;
use books::Book;
use bus::{Pair, Symbol};
use chips::{Gauge, Memory};
use masters::Masters;
use refusals::returned;
use std::alloc::{AllocError, Global};

// Runs at most n slots, and writes them down.
fn run<M: Masters>(
    bench: &mut Bench<M, Pair<Gauge, Memory>>,
    n: usize,
    text: &mut String,
) -> anyhow::Result<()> {
    let mut places = [0; 999];
    let mut book = Book::new(&mut places);
    let moved = bench.run(n, &mut book);
    let marks = book.close();
    moved?;
    for rank in places.iter().take(marks) {
        write!(text, "{}", Symbol::try_from(*rank)?)?;
    }
    Ok(())
}

// Writes down what a master hands over: its answer, or the number of the refusal. `keyed` and `transfer` print answers in other forms.
fn collect<M: Masters>(
    bench: &mut Bench<M, Pair<Gauge, Memory>>,
    master: usize,
    text: &mut String,
) -> Result<(), AllocError> {
    let mut buffer = [0; 32];
    match bench.collect(master, &mut buffer) {
        Ok(answer) => {
            let outcome = answer.outcome;
            write!(
                text,
                " | {} {} {} {}:",
                outcome.number(),
                outcome.segment(),
                outcome.byte(),
                answer.losses
            )?;
            for byte in answer.bytes(&buffer) {
                write!(text, " {byte}")?;
            }
            Ok(())
        }
        Err(refusal) => write!(text, " | refused {}", refusal.number()),
    }
}

// Places both orders, tries a withdraw before the contest and in it, and runs until both are answered.
fn play<M: Masters>(
    heap: Global,
    bench: &mut Bench<M, Pair<Gauge, Memory>>,
    case: Case,
) -> anyhow::Result<String> {
    let mut text = String::new(heap);
    bench.place(0, case.first)?;
    bench.place(1, case.first)?;
    let withdrawn = returned(bench.withdraw(1));
    let placed = returned(bench.place(1, case.second));
    run(bench, 15, &mut text)?;
    let busy = returned(bench.withdraw(1));
    write!(text, " {withdrawn} {placed} {busy} ")?;
    run(bench, 999, &mut text)?;
    collect(bench, 0, &mut text)?;
    collect(bench, 1, &mut text)?;
    collect(bench, 1, &mut text)?;
    Ok(text)
}

// The slots, what the withdraws returned, and the answers.
pub fn played<A: Masters + Drop, B: Masters + Drop>(
    heap: Global,
    left: A,
    right: B,
    case: Case,
) -> anyhow::Result<String> {
    let slaves = Pair {
        left: Gauge::new(72, [25, 130, 7, 0])?,
        right: Memory::new(80)?,
    };
    let mut bench = Bench::assemble(Pair { left, right }, slaves);
    let text = play(heap, &mut bench, case);
    let _ = bench.take_apart();
    text
}
