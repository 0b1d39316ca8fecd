//! The directory of table files: what it is asked, one in memory for tests, and a folder of the machine.
#![tactic(auto)]

mod dir;
mod fails;
mod folder;
mod memory;
mod names;

pub use dir::{Dir, DirError, Found, Removal};
pub use fails::{Fail, How};
pub use folder::RealDir;
pub use memory::MemDir;
pub use names::{file_name, parse_name};
