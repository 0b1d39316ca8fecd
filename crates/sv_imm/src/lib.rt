//! Lists of immutable memtables: how one follows from another, and which memtables a list lets go.
#![tactic(auto)]

mod imm_lists;
mod kept_list;
mod members;

pub use imm_lists::{ImmLists, MAX_LISTS};
pub use members::MAX_MEMBERS;
