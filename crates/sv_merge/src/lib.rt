//! Tables from writes: building one from a range of numbered rows, and merging several into one.
#![tactic(auto)]

mod building;
mod merging;
mod placing;

pub use building::build;
pub use merging::merge;
