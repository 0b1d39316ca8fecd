// The active memtable of a family is emptied before a flush.
ghost use Rattle.std.specs.Prelude.{◌≡◌, None, OnErr, OnOk};
ghost use Rattle.sv_model.specs.Refusals.{Refuses};
ghost use Rattle.sv_state.specs.Follows.{Follows};
ghost use Rattle.sv_store.specs.Emptying.{CanEmpty, Empties, IsEmptied};
ghost use Rattle.sv_store.specs.Standing.{IsStill, Stands};

use crate::cells::Cells;
use crate::switches::switch;
use std::alloc::Global;
use sv_model::{FamilyId, Refusal};
use sv_state::State;

// Switches the family where its active memtable has a row; it is in this cell then. A refusal leaves all as it was.
pub(crate) fn empty_active(
    alloc: Global,
    state: &mut State,
    cells: &mut Cells,
    family: FamilyId,
    cell: Option<u8>,
) -> Result<(), Refusal>
    requires { CanEmpty state.old.books cells.old family cell }
    ensures empties { OnOk result (Empties state.old.books state.new.books family) }
    ensures emptied { OnOk result (IsEmptied state.new.books family) }
    ensures refused { Refuses None result }
    ensures kept { OnErr result ((state.new ≡ state.old) × (cells.new ≡ cells.old)) }
    ensures stands { Stands state.new.books cells.new None }
    ensures still { OnOk result (IsStill state.old.books.files → IsStill state.new.books.files) }
    ensures follows { Follows state.old.books state.new.books }
{
    let Some(cell) = cell else {
        return Ok(());
    };
    match switch(alloc, state, cells, family, cell) {
        Ok(_) => Ok(()),
        Err(refusal) => Err(refusal),
    }
}
