// Lines in and lines out, in memory that does not grow with the input.
use key_lines::Session;
use masters::Masters;
use numerals::Kept;
use slaves::Slaves;
use std::alloc::Global;
use std::io;
use std::io::{BufWriter, Read, Write};

// Writes the output line for one input line.
fn answer<M: Masters, S: Slaves>(
    heap: Global,
    session: &mut Session<M, S>,
    kept: &Kept,
    output: &mut impl Write,
) -> anyhow::Result<()> {
    let text = session.answer(heap, kept.line())?;
    output.write_all(text.as_bytes())?;
    output.write_all(b"\n")?;
    Ok(())
}

// Answers line after line; the last one may lack its line feed.
pub(crate) fn answer_all<M: Masters, S: Slaves>(
    rt: &(impl Input + Print + AllocGlobal),
    session: &mut Session<M, S>,
) -> anyhow::Result<()> {
    let heap = rt.alloc();
    let mut input = rt.reader();
    let mut output = BufWriter::new(heap, io::writer(rt))?;
    let mut kept = Kept::new();
    // with a bound the loop is proved to end, though it waits for input
    for _ in 0..u64::MAX {
        let mut buffer = [0u8; 8192];
        let n = input.read(&mut buffer)?;
        if n == 0 {
            break;
        }
        for byte in &buffer[..n] {
            if *byte == b'\n' {
                answer(heap, session, &kept, &mut output)?;
                kept.clear();
            } else {
                kept.keep(*byte);
            }
        }
    }
    if !kept.line().is_empty() {
        answer(heap, session, &kept, &mut output)?;
    }
    output.flush()?;
    Ok(())
}
