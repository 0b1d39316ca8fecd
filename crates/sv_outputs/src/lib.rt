//! What a flush and a compaction write: the file of a plan's frozen memtables, and that of the merge of its files. They
//! ask nothing of the books, so that nobody has to wait for them.
#![tactic(auto)]

mod compactions;
mod flushes;
mod laws;
mod merging;
mod numbering;
mod puts;
mod tables;

pub use compactions::write_compaction;
pub use flushes::write_flush;
pub use laws::{planned_flush_is_due, planned_merge_is_due};
