// Why the program ends early.
use std::alloc::{AllocError, AllocFailed};
use std::io;
use sv_model::OutOfMemory;

#[derive(Clone, Copy, Debug, PartialEq, Eq)]
pub enum Fault {
    /// The words are none that the program takes.
    Words,
    /// A call gave something other than what was to come.
    Wrong,
    OutOfMemory,
    /// The clock or standard output failed.
    Machine,
}

impl From<OutOfMemory> for Fault {
    fn from(_error: OutOfMemory) -> Fault {
        Fault::OutOfMemory
    }
}

impl From<AllocError> for Fault {
    fn from(_error: AllocError) -> Fault {
        Fault::OutOfMemory
    }
}

impl<T: Drop> From<AllocFailed<T>> for Fault {
    fn from(_error: AllocFailed<T>) -> Fault {
        Fault::OutOfMemory
    }
}

impl From<io::Error> for Fault {
    fn from(_error: io::Error) -> Fault {
        Fault::Machine
    }
}
