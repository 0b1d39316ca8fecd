//! Tests of the calls of the state.
#![tactic(auto)]

mod bench;
#[cfg(test)]
mod family_tests;
#[cfg(test)]
mod install_tests;
