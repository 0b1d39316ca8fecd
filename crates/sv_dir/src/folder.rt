// A folder of the machine as a directory.
ghost use Rattle.std.specs.Prelude.{◌≡◌, ◌≤◌};
ghost use Rattle.sv_model.specs.Faults.{Rose};

use crate::dir::{Dir, DirError, Found, Removal};
use crate::names::file_name;
use std::alloc::{AllocError, Global};
use std::fs::{File, Files};
use std::io::{ErrorKind, Read};
use std::path::{Path, PathBuf};
use std::{fs, io};
use sv_model::FileNumber;

/// A folder of the machine. It counts each error of the machine but "not found", which a read and a
/// removal answer as absent.
///
/// Trusted, and shown by tests alone: that the machine's calls do what their names say, so that a file
/// which was put is read back with its bytes, that a listing names each file once, and that nobody else
/// changes the folder meanwhile. No contract tells what the folder holds. A put that was answered `Ok`
/// was written to its end and the file closed; it was not forced to the disk. After a failed put the
/// file may hold a part of the bytes. A name in the folder that is not UTF-8 makes `list` fail.
#[derive(Drop)]
pub struct RealDir<R> {
    rt: R,
    alloc: Global,
    path: String,
    faults: u64,
}

// All names in the folder.
fn names_in<R: Files + Clone + Drop>(
    rt: &(R, Global),
    alloc: Global,
    path: &str,
) -> io::Result<Vec<String>> {
    let mut names = Vec::new(alloc);
    for entry in fs::read_dir(rt, path)? {
        let entry = entry?;
        names.push(String::from_str(alloc, entry.file_name())?)?;
    }
    Ok(names)
}

// The whole file.
fn read_whole<R: Files>(rt: &R, alloc: Global, path: Path<'_>) -> io::Result<Vec<u8>> {
    let mut file = File::open(rt, path)?;
    let mut bytes = Vec::new(alloc);
    file.read_to_end(&mut bytes)?;
    Ok(bytes)
}

impl<R: Files + Clone + Drop> RealDir<R> {
    ghost use Rattle.sv_dir.specs.RealDir.{real_faults};

    /// The folder at that path, reached through the runtime, which it keeps. Nothing is asked of the
    /// machine yet, and nothing is allocated.
    pub fn new(rt: R, alloc: Global, path: String) -> RealDir<R>
        ensures { real_faults result ≡ 0 }
    {
        RealDir {
            rt,
            alloc,
            path,
            faults: 0,
        }
    }

    fn path_of(&self, number: FileNumber) -> Result<PathBuf, AllocError> {
        let name = file_name(number);
        Path::new(self.path.as_str()).join(self.alloc, name.as_str())
    }

    // Counts a fault.
    fn fail(&mut self) -> DirError
        ensures error { result ≡ DirError.Failed }
        ensures later { real_faults self.old ≤ real_faults self.new }
        ensures rose { Rose (real_faults self.old) (real_faults self.new) }
    {
        self.faults = self.faults.saturating_add(1);
        DirError::Failed
    }

    // The error of a call that changes nothing: want of memory is no fault of the folder.
    fn refuse(&mut self, error: io::Error) -> DirError
        ensures later { real_faults self.old ≤ real_faults self.new }
        ensures rose { result ≡ DirError.Failed → Rose (real_faults self.old) (real_faults self.new) }
    {
        if error.kind() == ErrorKind::OutOfMemory {
            return DirError::OutOfMemory;
        }
        self.fail()
    }
}

impl<R: Files + Clone + Drop> Dir for RealDir<R> {
    ghost use Rattle.std.specs.Prelude.{None};
    ghost use Rattle.sv_dir.specs.RealDir.{real_faults};

    ghost files = { λ _. None };

    ghost faults = { real_faults };

    fn list(&mut self) -> Result<Vec<String>, DirError> {
        let rt = (self.rt.clone()?, self.alloc);
        match names_in(&rt, self.alloc, self.path.as_str()) {
            Ok(names) => Ok(names),
            Err(error) => Err(self.refuse(error)),
        }
    }

    fn put(&mut self, number: FileNumber, bytes: &[u8]) -> Result<(), DirError> {
        let path = self.path_of(number)?;
        match fs::write(&self.rt, path.as_path(), bytes) {
            Ok(()) => Ok(()),
            Err(_) => Err(self.fail()),
        }
    }

    fn read(&mut self, number: FileNumber) -> Result<Found, DirError> {
        let path = self.path_of(number)?;
        match read_whole(&self.rt, self.alloc, path.as_path()) {
            Ok(bytes) => Ok(Found::Bytes(bytes)),
            Err(error) => {
                if error.kind() == ErrorKind::NotFound {
                    return Ok(Found::Absent);
                }
                Err(self.refuse(error))
            }
        }
    }

    fn remove(&mut self, number: FileNumber) -> Result<Removal, DirError> {
        let path = self.path_of(number)?;
        match fs::remove_file(&self.rt, path.as_path()) {
            Ok(()) => Ok(Removal::Removed),
            Err(error) => {
                if error.kind() == ErrorKind::NotFound {
                    return Ok(Removal::Absent);
                }
                Err(self.fail())
            }
        }
    }
}
