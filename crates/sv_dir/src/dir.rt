// The directory as its users see it: four calls, the files that it holds, and how often it failed.
ghost use Rattle.std.specs.Prelude.{◌≡◌, ℕ, map, Option, OnOk, IfOk, IfSome, IsErrOf, string_bytes};
ghost use Rattle.sv_model.specs.Faults.{HasCauseOf};
ghost use Rattle.sv_model.specs.Files.{Files, file_of};
ghost use Rattle.sv_dir.specs.Files.{PutsFile, LeavesAny, RemovesFile, MayRemove, ListsEach, Finds, removal_of};

use std::alloc::{AllocError, AllocFailed};
use sv_model::{FileNumber, OutOfMemory};

/// Why a call of a directory failed.
#[derive(Clone, Copy, Debug, PartialEq, Eq)]
pub enum DirError {
    /// The directory failed, and counted it.
    Failed,
    /// Memory was wanted and not had. Nothing changed.
    OutOfMemory,
}

impl From<AllocError> for DirError {
    ghost use Rattle.sv_dir.specs.declared.dir.DirError.TheVariants as dir_error;

    ghost from_gives = { λ _ e. e ≡ dir_error.OutOfMemory };

    fn from(_error: AllocError) -> DirError {
        DirError::OutOfMemory
    }
}

impl<T: Drop> From<AllocFailed<T>> for DirError {
    ghost use Rattle.sv_dir.specs.declared.dir.DirError.TheVariants as dir_error;

    ghost from_gives = { λ _ e. e ≡ dir_error.OutOfMemory };

    fn from(_error: AllocFailed<T>) -> DirError {
        DirError::OutOfMemory
    }
}

impl From<OutOfMemory> for DirError {
    ghost use Rattle.sv_dir.specs.declared.dir.DirError.TheVariants as dir_error;

    ghost from_gives = { λ _ e. e ≡ dir_error.OutOfMemory };

    fn from(_error: OutOfMemory) -> DirError {
        DirError::OutOfMemory
    }
}

/// What a read found.
#[derive(Drop, Debug)]
pub enum Found {
    /// The file's bytes.
    Bytes(Vec<u8>),
    /// There is no such file.
    Absent,
}

/// How a removal ended. The file is not there after both.
#[derive(Clone, Copy, Debug, PartialEq, Eq)]
pub enum Removal {
    Removed,
    Absent,
}

/// A directory of table files, each named by its number; it may hold other files too.
pub trait Dir {
    /// The files, by name, where the directory tells them.
    ghost files: { Self → Option Files };

    /// How often the directory failed. The count never falls, and stands still at its greatest value.
    ghost faults: { Self → ℕ };

    /// The names of all files, each once, in any order.
    fn list(&mut self) -> Result<Vec<String>, DirError>
        ensures names { IfOk result (λ names. IfSome (files self.old) (ListsEach (map string_bytes names.items))) }
        ensures same { files self.new ≡ files self.old }
        ensures cause { HasCauseOf DirError.Failed (faults self.old) (faults self.new) result };

    /// Makes the file of that number, or writes over it.
    fn put(&mut self, number: FileNumber, bytes: &[u8]) -> Result<(), DirError>
        ensures stored { OnOk result (PutsFile number bytes.now (files self.old) (files self.new)) }
        ensures failed { IsErrOf result DirError.Failed → LeavesAny number (files self.old) (files self.new) }
        ensures memory { IsErrOf result DirError.OutOfMemory → files self.new ≡ files self.old }
        ensures cause { HasCauseOf DirError.Failed (faults self.old) (faults self.new) result };

    /// The bytes of the file of that number.
    fn read(&mut self, number: FileNumber) -> Result<Found, DirError>
        ensures found { IfOk result (λ found. IfSome (files self.old) (λ files. Finds (file_of number files) found)) }
        ensures same { files self.new ≡ files self.old }
        ensures cause { HasCauseOf DirError.Failed (faults self.old) (faults self.new) result };

    /// Removes the file of that number.
    fn remove(&mut self, number: FileNumber) -> Result<Removal, DirError>
        ensures answer { IfOk result (λ removal. IfSome (files self.old) (λ files. removal ≡ removal_of (file_of number files))) }
        ensures removed { OnOk result (RemovesFile number (files self.old) (files self.new)) }
        ensures failed { IsErrOf result DirError.Failed → MayRemove number (files self.old) (files self.new) }
        ensures memory { IsErrOf result DirError.OutOfMemory → files self.new ≡ files self.old }
        ensures cause { HasCauseOf DirError.Failed (faults self.old) (faults self.new) result };
}
