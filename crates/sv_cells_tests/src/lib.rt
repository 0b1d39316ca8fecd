//! Tests of the memtables and their cells.
#![tactic(auto)]

#[cfg(test)]
mod tests;
