//! A put of a lane of many: the row goes into the journal and into the family's active memtable, under the DB lock. A
//! switch to a new memtable comes first where one is due.
#![tactic(auto)]

mod appends;
mod cells;
mod freezes;
mod puts;
mod switches;

pub use puts::put;
