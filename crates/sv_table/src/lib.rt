//! Table files: their bytes in three formats, and looking up a key in them.
#![tactic(auto)]

mod checked;
mod decoding;
mod encoding;
mod faults;
mod fields;
mod formats;
mod headers;
mod heads;
mod hits;
mod key_order;
mod laws;
mod lookups;
mod places;
mod rows;
mod walks;

pub use checked::Checked;
pub use decoding::decode;
pub use encoding::encode;
pub use faults::{Bad, DecodeError};
pub use heads::{Head, check, check_and_find};
pub use hits::Hit;
pub use laws::one_text;
pub use lookups::find_in;
