//! The store of one lane: the state, and the 64 cells of its memtables.
#![tactic(auto)]

mod appends;
mod cells;
mod cleanups;
mod closes;
mod compaction_files;
mod compaction_installs;
mod compactions;
mod emptying;
mod families;
mod filling;
mod flush_files;
mod flush_installs;
mod flushes;
mod holds;
mod installs;
mod live;
mod openings;
mod options;
mod purges;
mod reads;
mod releases;
mod removals;
mod scans;
mod snapshots;
mod store;
mod summaries;
mod switches;
mod writes;

pub use closes::Closed;
pub use reads::Got;
pub use store::Store;
