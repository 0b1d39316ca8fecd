// An install is carried out at once.
ghost use Rattle.std.specs.Prelude.{◌≡◌, None, Some};
ghost use Rattle.sv_model.specs.declared.sv_refs.SvRef.{SvRef};
ghost use Rattle.sv_objects.specs.declared.bodies.Body.{Body};
ghost use Rattle.sv_state.specs.Follows.{Follows};
ghost use Rattle.sv_store.specs.Going.{PackGoes};
ghost use Rattle.sv_store.specs.Standing.{Stands};
ghost use Rattle.sv_store.specs.Writing.{CanObey};

use crate::cells::Cells;
use crate::cleanups::clean;
use crate::filling::fill;
use std::alloc::Global;
use sv_model::{MemId, SvRef};
use sv_state::{Body, State};

// The new memtable, if there is one, takes its cell, and the SuperVersion that was current before goes. Takes no memory.
pub(crate) fn obey(
    alloc: Global,
    state: &mut State,
    cells: &mut Cells,
    vacant: Option<(u8, MemId)>,
    old: Option<SvRef<Body>>,
)
    requires { CanObey state.old.books cells.old vacant old }
    ensures stands { Stands state.new.books cells.new None }
    ensures goes { (r : SvRef Body) → old ≡ Some r → PackGoes state.old.books state.new.books r.pack }
    ensures spare { state.new.spare ≡ state.old.spare }
    ensures follows { Follows state.old.books state.new.books }
{
    fill(alloc, cells, vacant);
    let Some(old) = old else {
        unreachable!();
    };
    clean(state, cells, old.pack);
}
