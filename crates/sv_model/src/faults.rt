// Want of memory, the one answer that every call which allocates may give.
use std::alloc::{AllocError, AllocFailed};

/// Memory was wanted and not had. It may stand in place of any other answer of a call that allocates.
#[derive(Clone, Copy, Debug, PartialEq, Eq)]
pub struct OutOfMemory;

impl From<AllocError> for OutOfMemory {
    fn from(_error: AllocError) -> OutOfMemory {
        OutOfMemory
    }
}

impl<T: Drop> From<AllocFailed<T>> for OutOfMemory {
    fn from(_error: AllocFailed<T>) -> OutOfMemory {
        OutOfMemory
    }
}
