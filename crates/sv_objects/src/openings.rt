// The first SuperVersion of a family that was kept: all is made, or nothing.
ghost use Rattle.std.specs.Prelude.{◌≡◌, ◌<◌, ◌∷◌, [], IfOk, OnErr, length};
ghost use Rattle.sv_model.specs.Refusals.{Refuses, first_due};
ghost use Rattle.sv_cells.specs.Calls.{memtables_refusal};
ghost use Rattle.sv_registry.specs.Calls.{make_refusal};
ghost use Rattle.sv_version.specs.Changes.{live_version};
ghost use Rattle.sv_version.specs.KeptVersions.{IsSound};
ghost use Rattle.sv_objects.specs.Openings.{OpenMade};

use crate::bodies::{Body, Held};
use crate::making::{cell_of, make_ref};
use crate::objects::Objects;
use std::alloc::Global;
use sv_cells::MAX_MEMTABLES;
use sv_imm::MAX_LISTS;
use sv_model::{Descriptor, FamilyId, FileMeta, Options, OutOfMemory, Refusal, SvRef};
use sv_version::MAX_VERSIONS;

impl Objects {
    /// The first SuperVersion of a family that was kept: its memtable begins after `base` writes, its list is empty,
    /// and its Version has these files.
    pub fn make_open(
        &mut self,
        alloc: Global,
        family: FamilyId,
        options: Options,
        base: u64,
        files: &[FileMeta],
    ) -> Result<SvRef<Body>, Refusal>
        requires sound { IsSound (live_version files.now) }
        requires few_memtables { length self.old.memtables < MAX_MEMTABLES }
        requires few_lists { length self.old.lists < MAX_LISTS }
        requires few_versions { length self.old.versions < MAX_VERSIONS }
        ensures made { IfOk result (λ r. OpenMade self.old family options base files.now self.new r.pack r.body.value) }
        ensures refused { Refuses (first_due (memtables_refusal self.old.memtables ∷ make_refusal self.old.supers ∷ [])) result }
        ensures kept { OnErr result (self.new ≡ self.old) }
    {
        let held = Held {
            frozen: Vec::new(alloc),
            files: copied(alloc, files)?,
        };
        let files = copied(alloc, files)?;
        let active = self.memtables.make(family, base)?;
        let cell = cell_of(&self.memtables, active);
        let Ok(list) = self.lists.first() else {
            self.memtables.take_back();
            return Err(Refusal::OutOfMemory);
        };
        let Ok(version) = self.versions.append(files) else {
            self.lists.take_back();
            self.memtables.take_back();
            return Err(Refusal::OutOfMemory);
        };
        let descriptor = Descriptor {
            family,
            active,
            list,
            version,
            base,
            options,
        };
        match make_ref(&mut self.supers, alloc, descriptor, cell, held) {
            Ok(made) => Ok(made),
            Err(refusal) => {
                self.versions.take_back();
                self.lists.take_back();
                self.memtables.take_back();
                Err(refusal)
            }
        }
    }
}

fn copied(alloc: Global, files: &[FileMeta]) -> Result<Vec<FileMeta>, OutOfMemory>
    ensures { IfOk result (λ copy. copy.items ≡ files.now) }
{
    Ok(Vec::from_slice(alloc, files)?)
}
