//! Tests of the lists of immutable memtables and of the Versions.
#![tactic(auto)]

mod follow;
#[cfg(test)]
mod list_tests;
mod many;
#[cfg(test)]
mod tests;
#[cfg(test)]
mod version_tests;
