// A row is written into the journal and into its memtable.
ghost use Rattle.std.specs.Prelude.{◌≡◌, None, IfOk, OnErr};
ghost use Rattle.sv_model.specs.Refusals.{Refuses};
ghost use Rattle.sv_state.specs.Follows.{Follows};
ghost use Rattle.sv_store.specs.Standing.{Stands};
ghost use Rattle.sv_store.specs.Writing.{Accepts, CanAppend};

use crate::cells::Cells;
use sv_model::{FamilyId, Refusal, Row};
use sv_state::State;

/// The lane that the store is of.
pub(crate) const LANE: u8 = 0;

// Writes the row into the family's active memtable, which is in this cell. Gives the write's number in the family. Out of
// memory leaves all as it was.
pub(crate) fn append(
    state: &mut State,
    cells: &mut Cells,
    family: FamilyId,
    cell: u8,
    row: Row,
) -> Result<u64, Refusal>
    requires { CanAppend state.old cells.old family cell }
    ensures accepted { IfOk result (Accepts state.old.books state.new.books family row) }
    ensures refused { Refuses None result }
    ensures kept { OnErr result ((state.new ≡ state.old) × (cells.new ≡ cells.old)) }
    ensures stands { Stands state.new.books cells.new None }
    ensures files { state.new.books.files ≡ state.old.books.files }
    ensures follows { Follows state.old.books state.new.books }
{
    cells.add(cell, &row.key, &row.op)?;
    Ok(state.write_done(LANE, family, row))
}
