//! The laws of the state, over its books alone: what the books of an opening have, and what each change of them keeps.
//! Their words are in `specs/`, the laws in `proofs/`. Two functions that do nothing carry the laws in their contracts.
#![tactic(auto)]

mod laws;

pub use laws::{books_that_change, books_that_open};
