//! Reading a key in what a SuperVersion has: its active memtable, its frozen memtables, and its files. Each is looked
//! in by a call of its own, the newest first.
#![tactic(auto)]

mod bytes;
mod files;
mod memory;
mod values;

pub use files::find_in_files;
pub use memory::{find_active, find_frozen};
pub use values::{into_value, value_left};
