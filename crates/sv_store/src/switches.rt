// A family switches to a new memtable.
ghost use Rattle.std.specs.Prelude.{◌≡◌, ◌∷◌, [], None, OnErr, OnOk, IfOk};
ghost use Rattle.sv_model.specs.Refusals.{Refuses, first_due};
ghost use Rattle.sv_cells.specs.Calls.{memtables_refusal};
ghost use Rattle.sv_registry.specs.Calls.{make_refusal};
ghost use Rattle.sv_state.specs.Follows.{Follows};
ghost use Rattle.sv_store.specs.Standing.{IsStill, Stands};
ghost use Rattle.sv_store.specs.Writing.{CanFreeze, IsEmptyIn, Switches};

use crate::cells::Cells;
use crate::filling::cell_of;
use crate::installs::obey;
use std::alloc::Global;
use std::sync::Arc;
use sv_model::{FamilyId, Refusal};
use sv_state::State;

// Freezes the family's active memtable, which is in this cell and has a row; a new one without rows is active. Gives its
// cell. A refusal leaves all as it was.
pub(crate) fn switch(
    alloc: Global,
    state: &mut State,
    cells: &mut Cells,
    family: FamilyId,
    cell: u8,
) -> Result<u8, Refusal>
    requires { CanFreeze state.old.books cells.old family cell }
    ensures switched { OnOk result (Switches family state.old.books state.new.books) }
    ensures empty { IfOk result (IsEmptyIn state.new.books family) }
    ensures refused { Refuses (first_due (memtables_refusal state.old.books.memtables ∷ make_refusal state.old.books.supers ∷ [])) result }
    ensures kept { OnErr result ((state.new ≡ state.old) × (cells.new ≡ cells.old)) }
    ensures stands { Stands state.new.books cells.new None }
    ensures still { OnOk result (IsStill state.old.books.files → IsStill state.new.books.files) }
    ensures spare { state.new.spare ≡ state.old.spare }
    ensures follows { Follows state.old.books state.new.books }
{
    let frozen = cells.memtable(cell).freeze()?;
    let Ok(frozen) = Arc::new(alloc, frozen) else {
        return Err(Refusal::OutOfMemory);
    };
    let install = state.switch(family, frozen)?;
    let cell = cell_of(&install.vacant);
    obey(alloc, state, cells, install.vacant, install.old);
    Ok(cell)
}
