//! Tests of a database of two lanes: each lane steps in turn, from one thread.
#![tactic(auto)]

#[cfg(test)]
mod get_tests;
#[cfg(test)]
mod handle_tests;
#[cfg(test)]
mod lanes;
#[cfg(test)]
mod pin_tests;
#[cfg(test)]
mod steps;
#[cfg(test)]
mod words;
