//! A database of many lanes: each gets and puts by the names of families, pins what it reads, and rests.
#![tactic(auto)]

mod handles;
mod locals;
mod named_gets;
mod named_handles;
mod named_pins;
mod named_puts;
mod opened;
mod openings;
mod pins;
mod rests;
mod unopened;

pub use locals::{Db, Local, MAX_PINS};
pub use opened::open_db;
