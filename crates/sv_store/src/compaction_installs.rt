// The file of a compaction is installed.
ghost use Rattle.std.specs.Prelude.{◌≡◌, None, OnErr, OnOk, true, ℕ};
ghost use Rattle.sv_model.specs.Refusals.{Refuses};
ghost use Rattle.sv_laws.specs.Captures.{IsGivenUp};
ghost use Rattle.sv_laws.specs.NewCurrents.{IsCompacted};
ghost use Rattle.sv_registry.specs.Calls.{make_refusal};
ghost use Rattle.sv_state.specs.Follows.{Follows};
ghost use Rattle.sv_store.specs.Going.{Renews};
ghost use Rattle.sv_store.specs.Installing.{CanInstall};
ghost use Rattle.sv_store.specs.Standing.{Stands};

use crate::cells::Cells;
use crate::installs::obey;
use std::alloc::Global;
use sv_model::{FileMeta, Refusal};
use sv_state::State;

// The file, which is written, alone is the family's new Version; or its number is given up.
pub(crate) fn install_compacted(
    alloc: Global,
    state: &mut State,
    cells: &mut Cells,
    file: FileMeta,
) -> Result<(), Refusal>
    requires can { (family : ℕ) × CanInstall state.old.books cells.old family file }
    requires kind { file.bottom.last ≡ true }
    ensures compacted { (family : ℕ) → CanInstall state.old.books cells.old family file → OnOk result (Renews (λ a b. IsCompacted a b family file) family state.old.books state.new.books) }
    ensures given_up { (family : ℕ) → CanInstall state.old.books cells.old family file → OnErr result (IsGivenUp state.old.books state.new.books family file.number) }
    ensures refused { Refuses (make_refusal state.old.books.supers) result }
    ensures stands { Stands state.new.books cells.new None }
    ensures follows { Follows state.old.books state.new.books }
{
    let install = match state.compact_done(file) {
        Ok(install) => install,
        Err(refusal) => return Err(refusal),
    };
    // It makes no memtable.
    obey(alloc, state, cells, None, install.old);
    Ok(())
}
