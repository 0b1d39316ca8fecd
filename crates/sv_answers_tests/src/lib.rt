//! Tests of the answers of the one lane over its store: each command once, and what it is refused as.
#![tactic(auto)]

#[cfg(test)]
mod bench;
#[cfg(test)]
mod compactions;
#[cfg(test)]
mod families;
#[cfg(test)]
mod flushes;
#[cfg(test)]
mod holds;
#[cfg(test)]
mod rows;
#[cfg(test)]
mod scans;
