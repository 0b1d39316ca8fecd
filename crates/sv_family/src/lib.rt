//! The column families: their names and options, which are dropped, and which lane has a handle of which.
#![tactic(auto)]

mod closing;
mod families;
mod making;
mod openings;
mod ranges;
mod sought;

pub use families::Families;
pub use ranges::{MAX_IMMUTABLE, with_option};
