// The state with which a database begins.
ghost use Rattle.std.specs.Prelude.{◌≡◌, ◌≤◌, IfOk};
ghost use Rattle.sv_model.specs.Openings.{opening_books};
ghost use Rattle.sv_model.specs.Steady.{Sound};

use crate::installs::top_of;
use crate::state::State;
use std::alloc::Global;
use sv_family::Families;
use sv_files::FileBook;
use sv_journal::Journal;
use sv_model::{FamilyId, FileNumber, Options, OutOfMemory};
use sv_objects::Objects;

impl State {
    /// The family `default` alone, without writes and files; `next` is the number of the first file.
    pub fn new(alloc: Global, next: FileNumber) -> Result<State, OutOfMemory>
        requires { 1 ≤ next }
        ensures books { IfOk result (λ state. state.books ≡ opening_books next) }
        ensures sound { IfOk result (λ state. Sound state.books) }
    {
        let files = FileBook::new(alloc, next);
        files.laws();
        let mut objects = Objects::new(alloc, files);
        let families = Families::new(alloc)?;
        let Ok(first) = objects.make_family(alloc, FamilyId(0), Options::FIRST) else {
            return Err(OutOfMemory);
        };
        let mut tops = Vec::new(alloc);
        tops.push(top_of(&first))?;
        let mut held = Vec::new(alloc);
        held.push(Some(first))?;
        Ok(State {
            alloc,
            journal: Journal::new(alloc),
            objects,
            metas: Vec::new(alloc),
            families,
            tops,
            held,
        })
    }
}
