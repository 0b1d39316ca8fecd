// How a reading ends early.
/// Why a source was not read to its end.
#[derive(Clone, Copy, Debug, PartialEq, Eq)]
pub enum ReadStop {
    TooLong,
    Fault,
    OutOfMemory,
}
