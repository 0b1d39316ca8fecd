//! The state: every register of the store together, lawful after every call.
#![tactic(auto)]

mod begun;
mod capturing;
mod changing;
mod closing;
mod families;
mod finishing;
mod installs;
mod jobs;
mod live;
mod merging;
mod opened;
mod openings;
mod planning;
mod readers;
mod reports;
mod snapshots;
mod state;
mod writing;

pub use installs::Install;
pub use planning::{FlushPlan, Plan};
pub use state::State;
pub use sv_objects::Body;
