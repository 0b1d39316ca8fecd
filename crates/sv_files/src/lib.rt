//! The register of file numbers: what was captured, what may be done with each number, and what keeps
//! files from being removed.
#![tactic(auto)]

mod book;
mod grabs;
mod numbers;
mod queue;
mod settled;

pub use book::FileBook;
pub use settled::Settled;
