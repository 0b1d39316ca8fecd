//! The answers of the one lane to the commands of a script, over its store: each reply fits the books that its command
//! leaves, whatever the lane was told before.
#![tactic(auto)]

mod answers;
mod compactions;
mod families;
mod flushes;
mod holds;
mod listings;
mod options;
mod purges;
mod reads;
mod scans;
mod snapshots;
mod writes;

pub use answers::answer;
pub use compactions::compact;
pub use families::{create, drop_family, open, release};
pub use flushes::flush;
pub use holds::{hold, unhold};
pub use listings::live;
pub use options::set;
pub use purges::purge;
pub use reads::{get, gets};
pub use scans::scan;
pub use snapshots::{snap, unsnap};
pub use writes::{delete, put};
