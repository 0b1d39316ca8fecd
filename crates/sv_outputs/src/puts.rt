// Putting the file of an output into the directory.
ghost use Rattle.std.specs.Prelude.{IfErr, OnOk};
ghost use Rattle.sv_dir.specs.Files.{PutsFile};
ghost use Rattle.sv_file_checks.specs.Faults.{CountsFault};
ghost use Rattle.sv_outputs.specs.Putting.{OutputRefused};

use sv_dir::{Dir, DirError};
use sv_model::{FileNumber, Refusal};

// Puts the bytes under the number.
pub(crate) fn put_output<D: Dir>(
    dir: &mut D,
    number: FileNumber,
    bytes: &[u8],
) -> Result<(), Refusal>
    ensures put { OnOk result (PutsFile number bytes.now (D.files dir.old) (D.files dir.new)) }
    ensures refused { IfErr result (OutputRefused number (D.files dir.old) (D.files dir.new)) }
    ensures faults { CountsFault result (D.faults dir.old) (D.faults dir.new) }
{
    match dir.put(number, bytes) {
        Ok(()) => Ok(()),
        Err(DirError::Failed) => Err(Refusal::DirFault { number: number.0 }),
        Err(DirError::OutOfMemory) => Err(Refusal::OutOfMemory),
    }
}
