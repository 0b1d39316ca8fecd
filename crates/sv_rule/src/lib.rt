//! The rule of the one table of a database: what its words, the values at its slots and what the lanes know have to do
//! with one another, and what each kind of step makes of them.
#![tactic(auto)]

mod locks;
mod parts;
mod picks;
mod plays;
mod rule;
mod view;

pub use locks::{
    Gather, GiveCell, GiveDb, GiveDir, SplitLane, TakeCell, TakeDb, TakeDir, WriteCell,
};
pub use parts::{Parts, Stored};
pub use picks::{
    At, Begun, Celled, Cleans, Counting, Creates, Cuts, Embodied, Ends, Named, Placed, Reports,
    Swaps, Tasked, Writes,
};
pub use plays::{
    Add, AddRound, Clean, Create, EndCurrent, Frame, Look, Pass, PutSlot, Rest, Subtract, Swap,
    Sweep, Use,
};
pub use rule::{Opening, Rule};
pub use view::View;

/// The type of a slot.
pub type StoredOf<P> = Stored<
    <P as Parts>::State,
    <P as Parts>::Dir,
    <P as Parts>::Cell,
    <P as Parts>::Body,
>;
