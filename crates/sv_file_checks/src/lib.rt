//! Reading a table file's bytes, and checking them against the range that the file is to cover.
#![tactic(auto)]

mod checks;
mod reads;

pub use checks::{check_bytes, find_checked, other_field};
pub use reads::{read_bytes, read_checked};
