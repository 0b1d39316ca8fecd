//! A lane that has the DB lock makes a SuperVersion the current one of its family: the slots of all lanes are swept, and
//! the one before is cleaned up where nobody has a reference of it.
#![tactic(auto)]

mod fills;
mod installs;
mod sweeps;

pub use fills::install_filled;
pub use installs::install;
pub use sweeps::retire;
