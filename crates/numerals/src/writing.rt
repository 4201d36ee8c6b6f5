// The text of numbers.
ghost use Rattle.std.specs.Prelude.{◌≡◌, ◌∷◌, ◌++◌, IfOk, string_bytes, decimal, OnOk};
ghost use Rattle.numerals.specs.Lines.{text as text_of, further, ReadsBack};

use std::alloc::{AllocError, Global};
use std::fmt::Write;

// Numbers, the last of them bytes, with one space between.
pub fn text(heap: Global, first: u16, more: &[u16], bytes: &[u8]) -> Result<String, AllocError>
    ensures { IfOk result (λ s. string_bytes s ≡ text_of (first ∷ (more.now ++ bytes.now))) }
{
    let mut out = format!(in heap; "{first}")?;
    let bytes = bytes.iter().map(|b| u16::from(*b));
    for n in more.iter().copied().chain(bytes) {
        write!(out, " {n}")?;
    }
    Ok(out)
}

// What is written of numbers to 999 can be read again.
pub fn reads_back()
    ensures { ReadsBack }
{}
