//! Scripts and their replies: the grammar, and every text that a report has.
#![tactic(auto)]

mod commands;
mod outcomes;
mod parsing;
mod plain_bytes;
mod replies;
mod scripts;
mod texts;

pub use commands::Command;
pub use outcomes::Outcome;
pub use parsing::{parse, printed_items_are_read};
pub use replies::{LaneReport, Reply, Tail};
pub use scripts::{BadKind, BadLine, Line, MAX_COMMANDS, MAX_PHASES, Script, ScriptError};
pub use texts::{no_memory_text, outcome_text, reply_text, report_text, tail_text};
