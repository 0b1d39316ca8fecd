//! SuperVersions with all that they name: each is made whole, with its reference, or nothing is; and each goes with all
//! that nothing names any more.
#![tactic(auto)]

mod bodies;
mod cleanup;
mod making;
mod objects;
mod openings;

pub use bodies::{Body, Held};
pub use objects::Objects;
