//! The handles of a lane of many: it gets one of a family that is there, and drops a family of which it has one. Both are
//! changes of the books alone, under the DB lock.
#![tactic(auto)]

mod families;

pub use families::{drop_family, open_family};
