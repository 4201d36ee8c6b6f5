// Lines of numbers in, lines of numbers out, and a bench between.
#![tactic(auto)]

mod commands;
mod replies;
mod session;

pub use commands::one_meaning;
pub use session::Session;
