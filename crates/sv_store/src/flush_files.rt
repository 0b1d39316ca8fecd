// The rows of a family that are in no file are written as one file.
ghost use Rattle.std.specs.Prelude.{◌⊎◌, IfErr, IfOk};
ghost use Rattle.sv_file_checks.specs.Faults.{CountsFault};
ghost use Rattle.sv_state.specs.Follows.{Follows};
ghost use Rattle.sv_store.specs.Flushing.{CanFlush, CanFlushFamily, FlushesFamily, FlushesList, StopsAfter, StopsBefore, StopsFlush};
ghost use Rattle.sv_store.specs.Standing.{Rests};

use crate::cells::Cells;
use crate::emptying::empty_active;
use crate::flush_installs::install_flushed;
use std::alloc::Global;
use sv_dir::Dir;
use sv_model::{FamilyId, FileMeta, Refusal};
use sv_outputs::{planned_flush_is_due, write_flush};
use sv_state::State;

// Writes the rows of the family that are in no file as one file. A switch comes first where the active memtable, which
// is in this cell then, has a row.
pub(crate) fn flush_family<D: Dir>(
    alloc: Global,
    state: &mut State,
    cells: &mut Cells,
    dir: &mut D,
    family: FamilyId,
    cell: Option<u8>,
) -> Result<FileMeta, Refusal>
    requires { CanFlushFamily state.old.books cells.old family cell }
    ensures flushed { IfOk result (FlushesFamily state.old.books state.new.books (D.files dir.old) (D.files dir.new) family) }
    ensures stopped { IfErr result (λ e. StopsBefore state.old state.new cells.old cells.new (D.files dir.old) (D.files dir.new) e ⊎ StopsAfter state.old.books state.new.books (D.files dir.old) (D.files dir.new) family e) }
    ensures rests { Rests state.new.books cells.new }
    ensures faults { CountsFault result (D.faults dir.old) (D.faults dir.new) }
    ensures follows { Follows state.old.books state.new.books }
{
    match empty_active(alloc, state, cells, family, cell) {
        Ok(()) => {}
        Err(refusal) => return Err(refusal),
    }
    flush_list(alloc, state, cells, dir, family)
}

// Writes the memtables of the family's list as one file, and makes the Version that has it last. A refusal before a
// number was captured leaves all as it was; after that the number is given up.
fn flush_list<D: Dir>(
    alloc: Global,
    state: &mut State,
    cells: &mut Cells,
    dir: &mut D,
    family: FamilyId,
) -> Result<FileMeta, Refusal>
    requires { CanFlush state.old.books cells.old family }
    ensures flushed { IfOk result (FlushesList state.old.books state.new.books (D.files dir.old) (D.files dir.new) family) }
    ensures stopped { IfErr result (StopsFlush state.old.books state.new.books (D.files dir.old) (D.files dir.new) family) }
    ensures rests { Rests state.new.books cells.new }
    ensures faults { CountsFault result (D.faults dir.old) (D.faults dir.new) }
    ensures follows { Follows state.old.books state.new.books }
{
    let file = match state.flush_begin(family) {
        Ok(file) => file,
        Err(refusal) => return Err(refusal),
    };
    planned_flush_is_due();
    let body = &state.current(family).body;
    match write_flush(alloc, dir, body.frozen.as_slice(), &file) {
        Ok(()) => {}
        Err(refusal) => {
            state.output_failed(file.number);
            return Err(refusal);
        }
    }
    match install_flushed(alloc, state, cells, file) {
        Ok(()) => Ok(file),
        Err(refusal) => Err(refusal),
    }
}
