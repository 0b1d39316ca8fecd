//! Tests of scripts and texts alone.
#![tactic(auto)]

#[cfg(test)]
mod parsing_tests;
#[cfg(test)]
mod report_tests;
#[cfg(test)]
mod samples;
#[cfg(test)]
mod text_tests;
