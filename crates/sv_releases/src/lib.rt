//! A lane of many gives up its handle of a family. One that was dropped is retired by its last handle: it has no current
//! any more.
#![tactic(auto)]

mod endings;
mod releases;

pub use releases::release;
