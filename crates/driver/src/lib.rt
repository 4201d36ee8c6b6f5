// The register master: it works the registers of the block, and nothing else of it.
#![tactic(auto)]

mod master;

pub use master::Driver;
