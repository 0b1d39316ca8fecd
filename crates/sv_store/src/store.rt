// The store, which contracts see as its books and its cells.
ghost use Rattle.sv_store.specs.Standing.{Rests};

use crate::cells::Cells;
use std::alloc::Global;
use std::marker::Model;
use sv_state::State;

/// The store of one lane, which is lane 0: a state, and the cells of its memtables. Each call leaves no SuperVersion
/// Live but the families' currents.
#[derive(Drop)]
pub struct Store {
    pub(crate) alloc: Global,
    pub(crate) state: State,
    pub(crate) cells: Cells,
}

impl Model for Store {
    ghost use Rattle.sv_store.specs.Seen.{StoreSeen};
    ghost use Rattle.sv_store.specs.Views.{Keeps, seen_of};

    ghost Value = { StoreSeen };

    ghost view = { λ s. seen_of s };

    ghost invariant = { λ s. Keeps s };
}

impl Store {
    /// What holds of the store between calls. Does nothing.
    pub fn laws(&self)
        ensures rests { Rests self.now.books self.now.cells }
    {
        let _ = &self.alloc;
    }
}
