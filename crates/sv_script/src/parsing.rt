// Reading a script.
mod command_lines;
mod decimals;
mod errors;
mod item_bytes;
mod line_kinds;
mod operands;
mod progress;
mod reading;
mod splitting;
mod verbs;

pub use item_bytes::printed_items_are_read;
pub use reading::parse;
