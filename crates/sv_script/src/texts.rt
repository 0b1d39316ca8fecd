// Every text of a report, appended to one list of bytes.
mod outcome;
mod pieces;
mod refusal;
mod reply;
mod report;

pub use outcome::{no_memory_text, outcome_text};
pub use reply::reply_text;
pub use report::{report_text, tail_text};
