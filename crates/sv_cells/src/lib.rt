//! The records of memtables: each is made at the least free cell, and kept for ever once Gone.
#![tactic(auto)]

mod memtable_register;

pub use memtable_register::{MAX_MEMTABLES, MemtableRegister};
