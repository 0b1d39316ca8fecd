//! A lane reads: the current SuperVersion of a family, by the borrow that its slot caches, or one that it has pinned.
#![tactic(auto)]

mod cells;
mod files;
mod gets;
mod pins;
mod reads;

pub use gets::{Got, get_of, serial_of};
pub use pins::{get_through, pin_of};
