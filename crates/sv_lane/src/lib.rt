//! The one lane of a script over its store: its lines, each answered once and in order.
#![tactic(auto)]

mod playing;

pub use playing::play;
