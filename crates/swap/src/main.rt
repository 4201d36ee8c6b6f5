// Line masters and register masters in each other's places: the same orders make the same slots and the same answers.
#![tactic(auto)]

mod cases;
mod play;

use anyhow::anyhow;
use cases::cases;
use driver::Driver;
use line::Line;

fn run(rt: &(impl Print + AllocGlobal)) -> anyhow::Result<()> {
    let heap = rt.alloc();
    for case in cases(heap)? {
        println!(rt; "{}", case.name)?;
        let lines = play::played(heap, Line::new(), Line::new(), case)?;
        println!(rt; "  {lines}")?;
        // Each pair of makes is a type of its own, so no table holds them.
        let left = play::played(heap, Driver::new(), Line::new(), case)?;
        let right = play::played(heap, Line::new(), Driver::new(), case)?;
        let both = play::played(heap, Driver::new(), Driver::new(), case)?;
        if left != lines || right != lines || both != lines {
            return Err(anyhow!("the register master differs"));
        }
        println!(rt; "  same")?;
    }
    Ok(())
}

fn main(rt: HostRuntime) -> anyhow::Result<()> {
    run(&rt)
}
