//! Tests of the registry of SuperVersions and of the book of file numbers.
#![tactic(auto)]

#[cfg(test)]
mod books;
#[cfg(test)]
mod file_tests;
#[cfg(test)]
mod registry_tests;
