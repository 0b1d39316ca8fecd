//! Versions: how one follows from another, and which table files a Version lets go.
#![tactic(auto)]

mod kept_version;
mod versions;

pub use versions::{MAX_VERSIONS, Versions};
