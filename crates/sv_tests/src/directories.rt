// Directories for the tests, and what is left in one.
use std::alloc::Global;
use std::process::Abort;
use std::test::Fail as Failure;
use sv_dir::{Dir, Fail, Found, How, MemDir};
use sv_model::FileNumber;

/// A directory in memory of these files that fails at these calls.
pub fn failing_dir_of(
    alloc: Global,
    files: &[(&str, &str)],
    fails: &[(u64, How)],
) -> Result<MemDir, Failure> {
    let mut held = Vec::new(alloc);
    for (name, bytes) in files {
        held.push((name.to_string(alloc)?, bytes.as_bytes().to_vec(alloc)?))?;
    }
    let mut due = Vec::new(alloc);
    for (call, how) in fails {
        due.push(Fail {
            call: *call,
            how: *how,
        })?;
    }
    Ok(MemDir::new(alloc, held, due)?)
}

/// An empty directory in memory.
pub fn empty_dir(alloc: Global) -> Result<MemDir, Failure> {
    failing_dir_of(alloc, &[], &[])
}

/// A directory in memory of these files.
pub fn dir_of(alloc: Global, files: &[(&str, &str)]) -> Result<MemDir, Failure> {
    failing_dir_of(alloc, files, &[])
}

/// An empty directory in memory that fails at these calls.
pub fn failing_dir(alloc: Global, fails: &[(u64, How)]) -> Result<MemDir, Failure> {
    failing_dir_of(alloc, &[], fails)
}

/// The directory must have just the files of these names, each followed by a blank.
pub fn expect_names<D: Dir>(
    rt: &impl Abort,
    alloc: Global,
    dir: &mut D,
    names: &str,
) -> Result<(), Failure> {
    let mut line = String::new(alloc);
    let mut found = dir.list()?;
    // A folder lists its files in no order.
    found.sort_by(|a, b| a.as_str().cmp(b.as_str()))?;
    for name in found {
        line.push_str(name.as_str())?;
        line.push_str(" ")?;
    }
    assert_eq!(rt; line.as_str(), names);
    Ok(())
}

/// The file of this number must hold these bytes.
pub fn expect_file<D: Dir>(
    rt: &impl Abort,
    dir: &mut D,
    number: u64,
    bytes: &[u8],
) -> Result<(), Failure> {
    match dir.read(FileNumber(number))? {
        Found::Bytes(read) => assert_eq!(rt; read.as_slice(), bytes),
        Found::Absent => assert!(rt; false, "no file {number}"),
    }
    Ok(())
}
