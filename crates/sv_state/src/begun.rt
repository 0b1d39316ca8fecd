// The objects with which the families of a store that was kept begin.
ghost use Rattle.std.specs.Prelude.{◌≡◌, ◌<◌, ◌≤◌, ◌∷◌, ◌++◌, [], List, IfOk, OnOk, length};
ghost use Rattle.sv_model.specs.declared.limits.TheConstants.{MAX_FAMILIES};
ghost use Rattle.sv_model.specs.declared.openings.OpenFamily.{OpenFamily};
ghost use Rattle.sv_model.specs.Lists.{Every};
ghost use Rattle.sv_version.specs.Changes.{live_version};
ghost use Rattle.sv_version.specs.KeptVersions.{IsSound};
ghost use Rattle.sv_state.specs.Begun.{IsBegun};

use crate::installs::top_of;
use std::alloc::Global;
use sv_files::FileBook;
use sv_model::{FamilyId, OpenFamily, OutOfMemory, Refusal, SvRef, Top};
use sv_objects::{Body, Objects};

/// The objects of the families so far. By family, what it has on top, and a reference of its current SuperVersion.
#[derive(Drop)]
pub(crate) struct Begun {
    pub objects: Objects,
    pub tops: Vec<Top>,
    pub held: Vec<Option<SvRef<Body>>>,
}

impl Begun {
    // These families begin, over these file numbers.
    pub(crate) fn of(
        alloc: Global,
        files: FileBook,
        kept: &[OpenFamily],
    ) -> Result<Begun, OutOfMemory>
        requires few { length kept.now ≤ MAX_FAMILIES }
        requires sound { Every (λ f. IsSound (live_version f.files.items)) kept.now }
        ensures begun { IfOk result (λ begun. IsBegun kept.now begun) }
        ensures files { IfOk result (λ begun. begun.objects.files ≡ files) }
    {
        let mut begun = Begun {
            objects: Objects::new(alloc, files),
            tops: Vec::new(alloc),
            held: Vec::new(alloc),
        };
        for family in kept {
            begun.add(alloc, family)?;
        }
        Ok(begun)
    }

    // One family more begins.
    fn add(&mut self, alloc: Global, family: &OpenFamily) -> Result<(), OutOfMemory>
        requires few { (kept : List OpenFamily) × IsBegun kept self.old × (length kept < MAX_FAMILIES) }
        requires sound { IsSound (live_version family.now.files.items) }
        ensures begun { OnOk result ((kept : List OpenFamily) → IsBegun kept self.old → IsBegun (kept ++ family.now ∷ []) self.new) }
        ensures files { OnOk result (self.new.objects.files ≡ self.old.objects.files) }
    {
        let id = FamilyId(self.tops.len() as u8);
        let base = family.writes.len() as u64;
        let files = family.files.as_slice();
        let first = match self
            .objects
            .make_open(alloc, id, family.options, base, files)
        {
            Ok(first) => first,
            Err(refusal) => match refusal {
                Refusal::OutOfMemory => return Err(OutOfMemory),
                _ => unreachable!(),
            },
        };
        self.tops.push(top_of(&first))?;
        self.held.push(Some(first))?;
        Ok(())
    }
}
