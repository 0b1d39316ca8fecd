//! The records of SuperVersions: each is made at the least free place, and kept for ever once Gone.
#![tactic(auto)]

mod parts;
mod registry;

pub use registry::{Freed, Registry};
