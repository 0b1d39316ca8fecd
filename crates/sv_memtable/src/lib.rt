//! Memtables: the rows that were added, and the newest of each key.
#![tactic(auto)]

mod cells;
mod frozen;
mod numbers;

pub use cells::MemCell;
pub use frozen::Frozen;
