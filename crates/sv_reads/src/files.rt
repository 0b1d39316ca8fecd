// Looking in files.
ghost use Rattle.std.specs.Prelude.{◌≡◌};
ghost use Rattle.sv_file_checks.specs.Faults.{CountsFault};
ghost use Rattle.sv_reads.specs.Files.{FilesAnswer, LooksServed};
ghost use Rattle.sv_reads.specs.OneFile.{FileAnswers};

use crate::bytes::op_in;
use std::alloc::Global;
use sv_dir::Dir;
use sv_file_checks::read_bytes;
use sv_model::{FileMeta, Key, Op, Refusal};
use sv_objects::Body;

// What the file says of the key, at the cut.
fn find_in_file<D: Dir>(
    alloc: Global,
    dir: &mut D,
    file: &FileMeta,
    key: &Key,
    cut: u64,
) -> Result<Option<Op>, Refusal>
    ensures answer { FileAnswers (D.files dir.old) file.now key.now cut result }
    ensures same { D.files dir.new ≡ D.files dir.old }
    ensures faults { CountsFault result (D.faults dir.old) (D.faults dir.new) }
{
    let bytes = match read_bytes(dir, file.number) {
        Ok(bytes) => bytes,
        Err(refusal) => return Err(refusal),
    };
    match op_in(alloc, file, bytes.as_slice(), key, cut) {
        Ok(found) => Ok(found),
        Err(refusal) => Err(refusal),
    }
}

// What these files say of the key, at the cut. They are read from the last one on, until one decides.
fn find_back<D: Dir>(
    alloc: Global,
    dir: &mut D,
    files: &[FileMeta],
    key: &Key,
    cut: u64,
) -> Result<Option<Op>, Refusal>
    ensures answer { FilesAnswer (D.files dir.old) files.now key.now cut result }
    ensures same { D.files dir.new ≡ D.files dir.old }
    ensures faults { CountsFault result (D.faults dir.old) (D.faults dir.new) }
{
    let mut left = files;
    while let [older @ .., file] = left {
        if let Some(op) = find_in_file(alloc, dir, file, key, cut)? {
            return Ok(Some(op));
        }
        left = older;
    }
    Ok(None)
}

/// What the newest row of the key at or below the cut does, in the files of the body; none where they have no such row.
/// They are read from the newest one on, until one has such a row. Refused as `BadFile` where a file is not there (at
/// 0), is no table's text (at its first bad field) or is that of another range (at the first field that differs); as
/// `DirFault` where the directory fails.
pub fn find_in_files<D: Dir>(
    alloc: Global,
    dir: &mut D,
    body: &Body,
    key: &Key,
    cut: u64,
) -> Result<Option<Op>, Refusal>
    ensures answer { FilesAnswer (D.files dir.old) body.now.files key.now cut result }
    ensures looks { LooksServed (D.files dir.old) body.now.files key.now cut result }
    ensures same { D.files dir.new ≡ D.files dir.old }
    ensures faults { CountsFault result (D.faults dir.old) (D.faults dir.new) }
{
    find_back(alloc, dir, body.files.as_slice(), key, cut)
}
