// The file of a compaction: the merge of what the files hold.
ghost use Rattle.std.specs.Prelude.{◌≡◌, ℕ, List, Some, IfErr, OnOk};
ghost use Rattle.sv_model.specs.declared.writes.Write.{Write};
ghost use Rattle.sv_model.specs.Files.{Files};
ghost use Rattle.sv_model.specs.HeldFiles.{HoldsText};
ghost use Rattle.sv_model.specs.Lists.{Every};
ghost use Rattle.sv_dir.specs.Files.{PutsFile};
ghost use Rattle.sv_file_checks.specs.Faults.{CountsFault};
ghost use Rattle.sv_outputs.specs.Compacting.{IsMergeOfFiles, MergeRefused, PutsFlat};
ghost use Rattle.sv_outputs.specs.Merging.{IsMergeDue};

use crate::merging::merge_text;
use crate::puts::put_output;
use crate::tables::read_tables;
use std::alloc::Global;
use sv_dir::Dir;
use sv_model::{FileMeta, Refusal};

/// Writes the file of a compaction, which is to cover these files. They are read once each, the oldest
/// first. Refused as `DirFault` where the directory fails, and as `BadFile` at the first file that is bad; after a
/// failure in writing the file of the output's number is absent or holds any bytes.
pub fn write_compaction<D: Dir>(
    alloc: Global,
    dir: &mut D,
    files: &[FileMeta],
    file: &FileMeta,
) -> Result<(), Refusal>
    requires { IsMergeDue files.now file.now }
    ensures written { OnOk result ((bytes : List ℕ) × IsMergeOfFiles (D.files dir.old) files.now file.now bytes × PutsFile file.now.number bytes (D.files dir.old) (D.files dir.new)) }
    ensures refused { IfErr result (MergeRefused files.now file.now (D.files dir.old) (D.files dir.new)) }
    ensures flat { (all : Files) (journal : List Write) (family : ℕ) → D.files dir.old ≡ Some all → Every (HoldsText all journal family) files.now → PutsFlat journal family file.now (D.files dir.old) (D.files dir.new) result }
    ensures faults { CountsFault result (D.faults dir.old) (D.faults dir.new) }
{
    let tables = match read_tables(alloc, dir, files) {
        Ok(tables) => tables,
        Err(refusal) => return Err(refusal),
    };
    let Ok(text) = merge_text(alloc, &tables, file) else {
        return Err(Refusal::OutOfMemory);
    };
    put_output(dir, file.number, text.as_slice())
}
