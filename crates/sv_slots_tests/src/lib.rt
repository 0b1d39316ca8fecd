//! The table of lanes over a small database: four families, each with its first SuperVersion, and of the first one an
//! install, a cleanup and an end.
#![tactic(auto)]

#[cfg(test)]
mod closing_tests;
mod fills;
#[cfg(test)]
mod installs;
#[cfg(test)]
mod lanes;
#[cfg(test)]
mod lock_tests;
mod openings;
mod sizes;
#[cfg(test)]
mod slot_tests;
mod stages;
#[cfg(test)]
mod sweep_tests;
mod world;

pub use fills::{Unfilled, fill};
pub use openings::open;
pub use stages::Stage;
pub use world::{FAMILIES, Nowhere, Place, Shared, World};
