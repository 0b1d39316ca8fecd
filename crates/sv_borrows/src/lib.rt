//! How a lane of a database comes to a SuperVersion and gives it back: the borrow of a family's current, which its slot
//! caches, and the cleanup of a SuperVersion whose last reference is gone.
#![tactic(auto)]

mod cleanups;
mod lends;
mod parts;
mod returns;

pub use cleanups::clean;
pub use lends::lend;
pub use parts::{Database, Folder, Held, Seat, Slot, Table};
pub use returns::{give, let_go, settle};
