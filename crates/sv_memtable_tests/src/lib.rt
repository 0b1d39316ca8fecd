//! Tests of memtables: what is added and found, at each cut too, and what a frozen one keeps.
#![tactic(auto)]

#[cfg(test)]
mod memtables;
