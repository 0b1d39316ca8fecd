// The cleanup of the SuperVersion that was current before.
ghost use Rattle.std.specs.Prelude.{◌≡◌, Some, None};
ghost use Rattle.sv_state.specs.Follows.{Follows};
ghost use Rattle.sv_store.specs.Going.{PackGoes};
ghost use Rattle.sv_store.specs.Standing.{Stands};

use crate::cells::Cells;
use sv_model::Pack;
use sv_state::State;

// The SuperVersion that waits goes, with all that it alone names, and the cells of the memtables that went are vacant.
// Takes no memory.
pub(crate) fn clean(state: &mut State, cells: &mut Cells, pack: Pack)
    requires { Stands state.old.books cells.old (Some pack) }
    ensures stands { Stands state.new.books cells.new None }
    ensures goes { PackGoes state.old.books state.new.books pack }
    ensures spare { state.new.spare ≡ state.old.spare }
    ensures follows { Follows state.old.books state.new.books }
{
    let gone = state.cleanup(pack);
    cells.vacate(gone.as_slice());
}
