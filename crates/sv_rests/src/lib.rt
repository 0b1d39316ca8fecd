//! A lane of a database rests: it gives up the SuperVersions that its slots cache.
#![tactic(auto)]

mod rests;

pub use rests::rest;
