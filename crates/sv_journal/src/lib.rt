//! The journal: the accepted writes, how many of them are each family's, and the snapshots, each of which is a place in
//! it.
#![tactic(auto)]

mod journal;
mod live;
mod snapshots;

pub use journal::{FAMILIES, Journal};
