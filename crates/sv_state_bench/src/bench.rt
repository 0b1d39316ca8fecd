// A state under test, with what its calls require: no current of a family is ended, and beside the state are kept the
// active memtables, the outputs under way, and the SuperVersions that wait to be cleaned up.
ghost use Rattle.std.specs.Prelude.{◌≤◌};

use std::alloc::Global;
use std::marker::Model;
use sv_memtable::MemCell;
use sv_model::{FileMeta, FileNumber, MemId, OutOfMemory, Pack};
use sv_state::State;

#[derive(Drop)]
pub struct Bench {
    pub(crate) alloc: Global,
    pub(crate) state: State,
    /// By family, its active memtable.
    pub(crate) actives: Vec<MemCell>,
    /// The outputs under way, in the order in which they began; none in the place of one that ended.
    pub(crate) outputs: Vec<Option<FileMeta>>,
    /// SuperVersions that are no family's current any more; none in the place of one that went.
    pub(crate) waiting: Vec<Option<Pack>>,
    /// Whether a SuperVersion waits once it is no current any more; else it is cleaned up at once.
    pub(crate) keeps: bool,
}

impl Model for Bench {
    ghost use Rattle.sv_state.specs.Seen.{StateSeen};
    ghost use Rattle.sv_state_bench.specs.Standing.{Stands};

    ghost Value = { StateSeen };

    ghost view = { λ b. b.state };

    ghost invariant = { λ b. Stands b.state.books b.actives.items b.outputs.items b.waiting.items };
}

impl Bench {
    /// The state that opens, with the number of its first file, which is above 0.
    pub fn new(alloc: Global, next: u64) -> Result<Bench, OutOfMemory>
        requires { 1 ≤ next }
    {
        let state = State::new(alloc, FileNumber(next))?;
        let mut actives = Vec::new(alloc);
        actives.push(MemCell::new(alloc, MemId(1)))?;
        Ok(Bench {
            alloc,
            state,
            actives,
            outputs: Vec::new(alloc),
            waiting: Vec::new(alloc),
            keeps: false,
        })
    }

    /// Whether a SuperVersion waits from now on once it is no current any more.
    pub fn keep(&mut self, keeps: bool) {
        self.keeps = keeps;
    }
}
