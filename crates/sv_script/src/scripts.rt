// What a script is once it is read.
ghost use Rattle.std.specs.Prelude.{◌≡◌};
ghost use Rattle.sv_script.specs.declared.scripts.ScriptError.TheVariants as errors;

use crate::commands::Command;
use sv_model::{Items, OutOfMemory};

/// The greatest number of command lines of a script.
pub const MAX_COMMANDS: usize = 500_000;

/// The greatest number of phases that a `Script` can tell.
pub const MAX_PHASES: u32 = u32::MAX;

/// A script: its lines in order, without those that are skipped.
#[derive(Drop, Debug)]
pub struct Script {
    /// The greatest lane of its lines, 1 to 32; 1 where it has no line.
    pub lanes: u8,
    /// At least 1.
    pub phases: u32,
    /// At most 500,000.
    pub lines: Items<Line>,
}

/// A command line.
#[derive(Drop, Debug)]
pub struct Line {
    /// Its number in the script, from 1.
    pub line: u64,
    /// 1 to 32.
    pub lane: u8,
    /// From 0.
    pub phase: u32,
    pub command: Command,
}

/// Why bytes are not read as a script.
#[derive(Clone, Copy, Debug, PartialEq, Eq)]
pub enum ScriptError {
    /// A line is outside the grammar; this is the first.
    Bad(BadLine),
    OutOfMemory,
}

impl From<OutOfMemory> for ScriptError {
    ghost from_gives = { λ _ error. error ≡ errors.OutOfMemory };

    fn from(_error: OutOfMemory) -> ScriptError {
        ScriptError::OutOfMemory
    }
}

/// The first bad line of a script.
#[derive(Clone, Copy, Debug, PartialEq, Eq)]
pub struct BadLine {
    /// Its number in the script, from 1.
    pub line: u64,
    pub kind: BadKind,
}

/// What a bad line has wrong, in the order in which one line is tested.
#[derive(Clone, Copy, Debug, PartialEq, Eq)]
pub enum BadKind {
    /// It is the 500,001st command line.
    Commands,
    /// The first word is no lane number.
    Lane,
    /// There is no second word, or it is no command.
    Command,
    /// The number of words after the command is not the command's.
    Count,
    /// A word that is to be a family's name is none.
    Name,
    /// A word that is to be an item is none.
    Item,
    /// A word that is to be a number is none.
    Number,
    /// A word that is to be an option's name is none.
    Option,
    /// The command is not built yet, or the lane is above 1.
    Unbuilt,
}
