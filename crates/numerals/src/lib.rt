// Lines of decimal numbers: from bytes to numbers, and from numbers to text.
#![tactic(auto)]

mod kept;
mod reading;
mod writing;

pub use kept::{Kept, long_lines_are_wrong};
pub use reading::{one_list, read_numbers};
pub use writing::{reads_back, text};
