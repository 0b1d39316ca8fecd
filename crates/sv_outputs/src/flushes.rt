// The file of a flush: one table of the frozen memtables.
ghost use Rattle.std.specs.Prelude.{◌≡◌, ℕ, List, IfOk, IfErr, OnOk};
ghost use Rattle.sv_model.specs.declared.writes.Write.{Write};
ghost use Rattle.sv_model.specs.HeldFiles.{IsFileText};
ghost use Rattle.sv_dir.specs.Files.{PutsFile};
ghost use Rattle.sv_file_checks.specs.Faults.{CountsFault};
ghost use Rattle.sv_outputs.specs.Flushing.{AreWritesOf, IsFlushDue, IsFlushText, rows_in};
ghost use Rattle.sv_outputs.specs.Putting.{OutputRefused};

use crate::numbering::all_rows;
use crate::puts::put_output;
use std::alloc::Global;
use std::sync::Arc;
use sv_dir::Dir;
use sv_memtable::Frozen;
use sv_merge::build;
use sv_model::{FileMeta, OutOfMemory, Refusal};
use sv_table::encode;

// The text of the file.
fn flush_text(
    alloc: Global,
    frozen: &[(u8, Arc<Frozen>)],
    file: &FileMeta,
) -> Result<Vec<u8>, OutOfMemory>
    requires { IsFlushDue (rows_in frozen.now) file.now }
    ensures { IfOk result (λ text. IsFlushText (rows_in frozen.now) file.now text.items) }
{
    let rows = all_rows(alloc, frozen, file.from)?;
    let table = build(alloc, &rows, file.from, file.to, file.bottom)?;
    encode(alloc, &table)
}

/// Writes the file of a flush, which is to cover these frozen memtables, of which the first is the oldest: of each key
/// and each interval between the file's cuts the newest row. Refused as `DirFault` where the directory fails; then the
/// file of that number is absent or holds any bytes.
pub fn write_flush<D: Dir>(
    alloc: Global,
    dir: &mut D,
    frozen: &[(u8, Arc<Frozen>)],
    file: &FileMeta,
) -> Result<(), Refusal>
    requires { IsFlushDue (rows_in frozen.now) file.now }
    ensures written { OnOk result ((bytes : List ℕ) × IsFlushText (rows_in frozen.now) file.now bytes × PutsFile file.now.number bytes (D.files dir.old) (D.files dir.new)) }
    ensures flat { (journal : List Write) (family : ℕ) → AreWritesOf journal family file.now (rows_in frozen.now) → OnOk result ((bytes : List ℕ) × IsFileText journal family file.now bytes × PutsFile file.now.number bytes (D.files dir.old) (D.files dir.new)) }
    ensures refused { IfErr result (OutputRefused file.now.number (D.files dir.old) (D.files dir.new)) }
    ensures faults { CountsFault result (D.faults dir.old) (D.faults dir.new) }
{
    let Ok(text) = flush_text(alloc, frozen, file) else {
        return Err(Refusal::OutOfMemory);
    };
    put_output(dir, file.number, text.as_slice())
}
