//! The table of a database in use: what a lane's calls on slots, references, locks and number words do to it, and what
//! they make of what the lane knows.
#![tactic(auto)]

mod borrows;
mod closings;
mod counters;
mod install_steps;
mod installs;
mod lock_steps;
mod locks;
mod looks;
mod openings;
mod order;
mod own_slots;
mod picks;
mod refs;
mod seats;
mod steps;
mod table;

pub use borrows::{Back, Borrow, Miss};
pub use counters::Counts;
pub use openings::CoreError;
pub use picks::{Installing, Settling};
pub use refs::{Owed, Sub};
pub use table::{Core, LaneSeat, MAX_HAND};
