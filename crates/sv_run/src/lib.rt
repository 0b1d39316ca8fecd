//! The top call: a script from a source, its report to a sink, over a directory of table files.
#![tactic(auto)]

mod closing;
mod memory;
mod opening;
mod outcomes;
mod scripts;
mod standard;
mod stops;
mod streams;
mod top;
mod transfers;
mod words;

pub use memory::{MemSink, MemSource};
pub use outcomes::{Done, Ran, Status};
pub use standard::{StdSink, StdSource};
pub use streams::{Failed, Sink, Source};
pub use top::{run, run_without_memory};
pub use words::dir_word;
