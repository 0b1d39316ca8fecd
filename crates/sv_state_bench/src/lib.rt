//! A state under test, whose calls can always be made, and their answers.
#![tactic(auto)]

mod bench;
mod calls;
mod closings;
mod families;
mod openings;
mod outputs;
mod readers;
mod removals;
mod waits;
mod writes;

pub use bench::Bench;
pub use calls::{Answer, Call, Deed};
pub use openings::kept_store;
