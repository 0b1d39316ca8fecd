// The store as it opens.
ghost use Rattle.std.specs.Prelude.{◌≡◌, ◌≤◌, ◌∷◌, [], IfOk, None, Some, replicate};
ghost use Rattle.sv_model.specs.Openings.{opening_books};
ghost use Rattle.sv_store.specs.Opening.{opening_cells};

use crate::cells::Cells;
use crate::filling::fill;
use crate::store::Store;
use std::alloc::Global;
use sv_model::{FileNumber, MemId, OutOfMemory};
use sv_state::State;

impl Store {
    /// The family `default` alone, without writes and files; `next` is the number of the first file.
    pub fn new(alloc: Global, next: u64) -> Result<Store, OutOfMemory>
        requires { 1 ≤ next }
        ensures { IfOk result (λ store. store ≡ record { books = opening_books next; cells = opening_cells }) }
    {
        let state = State::new(alloc, FileNumber(next))?;
        let mut cells = Cells::new(alloc)?;
        fill(alloc, &mut cells, Some((0, MemId(1))));
        Ok(Store {
            alloc,
            state,
            cells,
        })
    }
}
