// The keyed questions: what the bench does, for both makes of master, held against what was worked out by hand.
#![tactic(auto)]

mod contests;
mod status;

use anyhow::anyhow;
use contests::{QUESTIONS, Question, compare, refusals};
use driver::Driver;
use line::Line;
use status::ROWS;
use std::io;

// How many answers differ from the key.
#[derive(Clone, Copy)]
struct Tally {
    different: usize,
}

impl Tally {
    // What was expected and what came.
    fn show(&mut self, rt: &impl Print, what: &str, expected: &str, came: &str) -> io::Result<()> {
        println!(rt; "  {what}: expected {expected}; came {came}")?;
        if expected == came {
            println!(rt; "    same")
        } else {
            self.different = self.different.saturating_add(1);
            println!(rt; "    DIFFERENT")
        }
    }
}

// A question, with the masters of those makes. Each pair of makes is a type of its own, so no table holds them.
fn ask(
    rt: &(impl Print + AllocGlobal),
    tally: &mut Tally,
    question: Question,
) -> anyhow::Result<()> {
    println!(rt; "{}", question.what)?;
    compare(rt, tally, "line, line", Line::new(), Line::new(), question)?;
    compare(
        rt,
        tally,
        "register, line",
        Driver::new(),
        Line::new(),
        question,
    )?;
    compare(
        rt,
        tally,
        "line, register",
        Line::new(),
        Driver::new(),
        question,
    )?;
    compare(
        rt,
        tally,
        "register, register",
        Driver::new(),
        Driver::new(),
        question,
    )
}

fn run(rt: &(impl Print + AllocGlobal)) -> anyhow::Result<()> {
    let mut tally = Tally { different: 0 };
    for question in QUESTIONS {
        ask(rt, &mut tally, question)?;
    }
    println!(rt; "refusals")?;
    refusals(rt, &mut tally)?;
    println!(rt; "IICSE0 of a register master, bits 15 to 8")?;
    for row in ROWS {
        status::check(rt, &mut tally, row)?;
    }
    match tally.different {
        0 => Ok(()),
        _ => Err(anyhow!("an answer differs from the key")),
    }
}

fn main(rt: HostRuntime) -> anyhow::Result<()> {
    run(&rt)
}
