//! The law of replies, over the books alone: when a reply of a lane fits books, what the lane's earlier replies tell,
//! and what holds of the replies of all lanes together. Its words are in `specs/`, one file a command; how each change of
//! the books makes a reply fit is in `proofs/`. Functions that do nothing carry the laws in their contracts.
#![tactic(auto)]

mod laws;

pub use laws::{
    actives_that_freeze, replies_of_one_lane, replies_that_begin, replies_that_go_on,
    replies_that_last, replies_that_make,
};
