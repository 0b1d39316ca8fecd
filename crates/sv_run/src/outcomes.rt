// How a run ends.
use sv_model::{End, Items};
use sv_script::{BadLine, LaneReport};
use sv_state::State;

/// How a run ended.
#[derive(Clone, Copy, Debug, PartialEq, Eq)]
pub enum Status {
    /// The script was read to its end, every line was answered, each file that was to go is gone, and the report
    /// was written whole. Or help was asked for, and the usage text was written.
    Ok,
    /// The words are none that the program takes.
    Usage,
    /// The bytes are no script, first at this line. Nothing ran.
    BadScript(BadLine),
    /// More bytes were read than a script may have. Nothing ran.
    ScriptTooLong,
    /// The source failed. Nothing ran.
    ReadFault,
    /// The sink failed. A front of the text that was due is written.
    WriteFault,
    /// The directory failed: before any lane ran, or at files that were to go at the end.
    DirFault,
    /// Memory was wanted and not had.
    OutOfMemory,
}

impl Status {
    ghost use Rattle.std.specs.Prelude.{◌≡◌};
    ghost use Rattle.sv_run.specs.ExitCodes.{exit_code_of};

    /// The exit status of the program.
    pub fn exit_code(self) -> u8
        ensures { result ≡ exit_code_of self }
    {
        match self {
            Status::Ok => 0,
            Status::Usage => 2,
            Status::BadScript(_) => 3,
            Status::ScriptTooLong => 4,
            Status::ReadFault => 5,
            Status::WriteFault => 6,
            Status::DirFault => 7,
            Status::OutOfMemory => 8,
        }
    }
}

/// What stands after the lanes ran to the end of the script and the store was closed.
#[derive(Drop)]
pub struct Done {
    pub books: State,
    pub lanes: Items<LaneReport>,
    pub end: End,
}

/// How a run came to its end, before the directory is handed back.
#[derive(Drop)]
pub(crate) struct Ended {
    pub status: Status,
    pub done: Option<Done>,
}

/// How a run ended, what stands where the lanes ran, and the directory that it was handed.
#[derive(Drop)]
pub struct Ran<D> {
    pub status: Status,
    pub done: Option<Done>,
    pub dir: D,
}
