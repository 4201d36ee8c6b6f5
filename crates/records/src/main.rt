// Reads records that are written out here and prints a line for each.
#![tactic(auto)]

mod made;

use books::Book;
use bus::Direction;
use made::{CUT_OFF, READ, RECORDS, REPEATED_START};
use reader::{Kind, Listed, Word, Words, acknowledged, address, direction, list, value};
use refusals::Refusal;
use std::{fmt, io};

// What the reader made of a record, after a 0, or the number of its refusal, with the place of an offence.
#[derive(Drop)]
struct Reading<T: Drop>(Result<T, Refusal>);

// Each word with its place.
#[derive(Drop)]
struct Told<'a>(Words<'a>);

// How many words a book was given, and the kind and place of each.
#[derive(Drop)]
struct Marked<'a>(&'a [Listed]);

// How many slots and words a record has, and what its bytes add up to.
#[derive(Drop)]
struct Summed {
    slots: usize,
    words: usize,
    sum: u64,
}

impl<T: fmt::Display + Drop> fmt::Display for Reading<T> {
    fn fmt<W: fmt::Write>(&self, f: &mut fmt::Formatter<W>) -> fmt::Result {
        match &self.0 {
            Ok(made) => write!(f, "0{made}"),
            Err(refusal) => {
                write!(f, "{}", refusal.number())?;
                if let Refusal::AgainstTurns { place } = refusal {
                    write!(f, " at {place}")?;
                }
                Ok(())
            }
        }
    }
}

// A byte: after a start the address and direction, else the value; + where it is acknowledged, - where not.
fn tell_byte<W: fmt::Write>(
    f: &mut fmt::Formatter<W>,
    slots: &[u8; 9],
    first: bool,
) -> fmt::Result {
    let ninth = if acknowledged(slots) { '+' } else { '-' };
    if !first {
        return write!(f, "{}{ninth}", value(slots));
    }
    let way = match direction(slots) {
        Direction::Write => 'W',
        Direction::Read => 'R',
    };
    write!(f, "{}{way}{ninth}", address(slots))
}

impl fmt::Display for Told<'_> {
    fn fmt<W: fmt::Write>(&self, f: &mut fmt::Formatter<W>) -> fmt::Result {
        // A flag: whether a byte is an address byte is told by the word before it alone.
        let mut first = false;
        for word in self.0 {
            write!(f, " {}:", word.listed().place)?;
            match word {
                Word::Start { .. } => write!(f, "S")?,
                Word::Stop { .. } => write!(f, "P")?,
                Word::Byte { slots, .. } => tell_byte(f, slots, first)?,
            }
            first = matches!(word, Word::Start { .. });
        }
        Ok(())
    }
}

impl fmt::Display for Marked<'_> {
    fn fmt<W: fmt::Write>(&self, f: &mut fmt::Formatter<W>) -> fmt::Result {
        write!(f, ": {} words,", self.0.len())?;
        for listed in self.0 {
            write!(f, " {}@{}", listed.kind.number(), listed.place)?;
        }
        Ok(())
    }
}

impl fmt::Display for Summed {
    fn fmt<W: fmt::Write>(&self, f: &mut fmt::Formatter<W>) -> fmt::Result {
        write!(
            f,
            ": {} slots, {} words, bytes add up to {}",
            self.slots, self.words, self.sum
        )
    }
}

// Lists a record in a book of five places.
fn print_marked(rt: &impl Print, slots: &[u8]) -> io::Result<()> {
    let mut places = [Listed {
        kind: Kind::Start,
        place: 0,
    }; 5];
    let mut book = Book::new(&mut places);
    let done = list(slots, &mut book);
    let total = book.close();
    println!(rt; "{}", Reading(done.map(|_| Marked(&places[..total]))))
}

fn add_up(slots: &[u8]) -> Result<Summed, Refusal> {
    let words = Words::of(slots)?;
    let mut sum = 0u64;
    for word in words {
        if let Word::Byte { slots, .. } = word {
            sum = sum.saturating_add(u64::from(value(slots)));
        }
    }
    Ok(Summed {
        slots: slots.len(),
        words: words.count(),
        sum,
    })
}

fn run(rt: &(impl Print + AllocGlobal)) -> anyhow::Result<()> {
    let heap = rt.alloc();
    for text in RECORDS {
        let slots = made::ranks(heap, text)?;
        println!(rt;
            "{}",
            Reading(Words::of(slots.as_slice()).map(|words| Told(words)))
        )?;
    }
    for text in [READ, REPEATED_START, CUT_OFF] {
        let slots = made::ranks(heap, text)?;
        print_marked(rt, slots.as_slice())?;
    }
    let long = made::long(heap)?;
    println!(rt; "{}", Reading(add_up(long.as_slice())))?;
    Ok(())
}

fn main(rt: HostRuntime) -> anyhow::Result<()> {
    run(&rt)
}
