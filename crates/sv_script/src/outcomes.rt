// How a run of the program ends where no report is due.
use crate::scripts::BadLine;

/// What the program has to say where no lane ran. The same text serves for help as for words that it does not take.
#[derive(Clone, Copy, Debug, PartialEq, Eq)]
pub enum Outcome {
    /// The words are none of those that the program takes, or help was asked for.
    Usage,
    /// The script is outside the grammar, first at this line.
    BadScript(BadLine),
    /// More bytes were read than a script may have.
    ScriptTooLong,
    /// The script could not be read to its end.
    ReadFault,
    /// The directory failed before any lane ran.
    DirFault,
    /// Out of memory before the report was made.
    OutOfMemory,
}
