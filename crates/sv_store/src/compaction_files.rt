// The files of a family are written as one file.
ghost use Rattle.std.specs.Prelude.{IfErr, IfOk, ℕ};
ghost use Rattle.sv_model.specs.Books.{Books};
ghost use Rattle.sv_file_checks.specs.Faults.{CountsFault};
ghost use Rattle.sv_state.specs.Follows.{Follows};
ghost use Rattle.sv_store.specs.Compacting.{CanMerge, GivesUpMerge, MergesFamily};
ghost use Rattle.sv_store.specs.Standing.{Rests};

use crate::cells::Cells;
use crate::compaction_installs::install_compacted;
use std::alloc::Global;
use sv_dir::Dir;
use sv_model::{FileMeta, Refusal};
use sv_outputs::{planned_merge_is_due, write_compaction};
use sv_state::State;

// Writes the files of the family that has captured the file's number as this file, and makes the Version of it alone; or
// the number is given up. Gives what it covers.
pub(crate) fn merge_family<D: Dir>(
    alloc: Global,
    state: &mut State,
    cells: &mut Cells,
    dir: &mut D,
    file: FileMeta,
) -> Result<FileMeta, Refusal>
    requires { (a : Books) × (family : ℕ) × CanMerge a state.old.books cells.old family file }
    ensures merged { (a : Books) (family : ℕ) → CanMerge a state.old.books cells.old family file → IfOk result (MergesFamily a state.new.books (D.files dir.old) (D.files dir.new) family) }
    ensures stopped { (a : Books) (family : ℕ) → CanMerge a state.old.books cells.old family file → IfErr result (GivesUpMerge a state.new.books (D.files dir.old) (D.files dir.new) family) }
    ensures rests { Rests state.new.books cells.new }
    ensures faults { CountsFault result (D.faults dir.old) (D.faults dir.new) }
    ensures follows { Follows state.old.books state.new.books }
{
    let family = state.captor(file.number);
    planned_merge_is_due();
    let body = &state.current(family).body;
    match write_compaction(alloc, dir, body.files.as_slice(), &file) {
        Ok(()) => {}
        Err(refusal) => {
            state.output_failed(file.number);
            return Err(refusal);
        }
    }
    match install_compacted(alloc, state, cells, file) {
        Ok(()) => Ok(file),
        Err(refusal) => Err(refusal),
    }
}
