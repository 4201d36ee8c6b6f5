// The program `key`: a bench of two masters, a gauge and a memory, worked by lines.
#![tactic(auto)]

use key_lines::Session;

mod parts;
mod stream;

fn run(rt: &(impl Input + Print + AllocGlobal)) -> anyhow::Result<()> {
    let mut session = Session::new(parts::key_bench());
    let done = stream::answer_all(rt, &mut session);
    drop(session.end());
    done
}

fn main(rt: HostRuntime) -> anyhow::Result<()> {
    run(&rt)
}
