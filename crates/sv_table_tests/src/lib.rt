//! Tests of table files: the bytes of examples in each format, each change of them, what is found in them; and small
//! merges.
#![tactic(auto)]

#[cfg(test)]
mod lookups;
#[cfg(test)]
mod merges;
#[cfg(test)]
mod places;
#[cfg(test)]
mod reader;
#[cfg(test)]
mod texts;
