// Reading the bytes of a file.
ghost use Rattle.std.specs.Prelude.{◌≡◌, Some, IfOk, IfErr, IfSome};
ghost use Rattle.sv_model.specs.Files.{file_of};
ghost use Rattle.sv_file_checks.specs.Checks.{AbsentRefusal, Holds, IsTextFor, ReadRefusal};
ghost use Rattle.sv_file_checks.specs.Faults.{CountsFault};

use crate::checks::check_bytes;
use sv_dir::{Dir, DirError, Found};
use sv_model::{FileMeta, FileNumber, Refusal};

/// The bytes of the file of that number. Refused as `DirFault` where the directory failed, and as `BadFile` at 0
/// exactly where there is no such file.
pub fn read_bytes<D: Dir>(dir: &mut D, number: FileNumber) -> Result<Vec<u8>, Refusal>
    ensures found { IfOk result (λ bytes. IfSome (D.files dir.old) (λ files. file_of number files ≡ Some bytes.items)) }
    ensures refused { IfErr result (AbsentRefusal (D.files dir.old) number) }
    ensures same { D.files dir.new ≡ D.files dir.old }
    ensures faults { CountsFault result (D.faults dir.old) (D.faults dir.new) }
{
    match dir.read(number) {
        Ok(Found::Bytes(bytes)) => Ok(bytes),
        Ok(Found::Absent) => Err(Refusal::BadFile {
            number: number.0,
            place: 0,
        }),
        Err(DirError::Failed) => Err(Refusal::DirFault { number: number.0 }),
        Err(DirError::OutOfMemory) => Err(Refusal::OutOfMemory),
    }
}

/// The bytes of the file, which are a table's text over its range. Refused as `DirFault` where the directory failed,
/// and as `BadFile` exactly where the file is bad: at 0 where there is none, at its first bad field where it is no
/// table, and at the first field that is not the file's where it is another table.
pub fn read_checked<D: Dir>(dir: &mut D, file: &FileMeta) -> Result<Vec<u8>, Refusal>
    ensures found { IfOk result (λ bytes. Holds (D.files dir.old) file.now (Some bytes.items)) }
    ensures text { IfOk result (λ bytes. IsTextFor file.now bytes.items) }
    ensures refused { IfErr result (ReadRefusal (D.files dir.old) file.now) }
    ensures same { D.files dir.new ≡ D.files dir.old }
    ensures faults { CountsFault result (D.faults dir.old) (D.faults dir.new) }
{
    let bytes = match read_bytes(dir, file.number) {
        Ok(bytes) => bytes,
        Err(refusal) => return Err(refusal),
    };
    match check_bytes(file, bytes.as_slice()) {
        Ok(()) => Ok(bytes),
        Err(refusal) => Err(refusal),
    }
}
