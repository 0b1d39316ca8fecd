//! Tables of calls of the state with their answers.
#![tactic(auto)]

#[cfg(test)]
mod family_tests;
#[cfg(test)]
mod file_tests;
#[cfg(test)]
mod opening_tests;
#[cfg(test)]
mod output_tests;
#[cfg(test)]
mod reading_tests;
#[cfg(test)]
mod row_tests;
#[cfg(test)]
mod snapshot_tests;
#[cfg(test)]
mod tables;
