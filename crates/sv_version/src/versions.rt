// The Versions ever made, and how many live ones name each table file.
ghost use Rattle.std.specs.Prelude.{◌≡◌, ℕ, ◌+◌, ◌<◌, ◌++◌, ◌∷◌, [], List, length, Some, OnErr, IfOk};
ghost use Rattle.sv_model.specs.declared.records.Version.{Version};
ghost use Rattle.sv_model.specs.Named.{IsLiveVersion, HasFile};
ghost use Rattle.sv_model.specs.Ranges.{FilesJoin};
ghost use Rattle.sv_model.specs.Registers.{entry, Has};
ghost use Rattle.sv_version.specs.Changes.{IsMade, IsReleased, live_version};
ghost use Rattle.sv_version.specs.KeptVersions.{IsSound};

use crate::kept_version::KeptVersion;
use std::alloc::Global;
use std::marker::Model;
use sv_model::{FileMeta, FileNumber, HolderRegister, OutOfMemory, VersionId};

/// The greatest number of Versions ever made.
pub const MAX_VERSIONS: usize = 4_294_967_295;

/// The Versions ever made. Contracts see them in the order of their ids, from 1. A Version that was released
/// is kept, since its id is never used again.
#[derive(Drop)]
pub struct Versions {
    versions: HolderRegister<KeptVersion>,
    alloc: Global,
}

impl Model for Versions {
    ghost use Rattle.std.specs.Prelude.{List};
    ghost use Rattle.sv_model.specs.declared.records.Version.{Version};

    ghost Value = { List Version };

    ghost view = { λ s. s.versions };
}

impl Versions {
    /// No Version. Takes no memory.
    pub fn new(alloc: Global) -> Versions
        ensures { result ≡ [] }
    {
        Versions {
            versions: HolderRegister::new(alloc),
            alloc,
        }
    }

    /// A new Version without files.
    pub fn first(&mut self) -> Result<VersionId, OutOfMemory>
        requires { length self.old < MAX_VERSIONS }
        ensures ok { IfOk result (IsMade self.old [] self.new) }
        ensures err { OnErr result (self.new ≡ self.old) }
    {
        let files = Vec::new(self.alloc);
        self.append(files)
    }

    /// A new Version with the file last; the file begins where the others end. The Version that it follows
    /// stays.
    pub fn add_file(&mut self, version: VersionId, file: FileMeta) -> Result<VersionId, OutOfMemory>
        requires live { IsLiveVersion self.old version }
        requires joins { (v : Version) → entry self.old version ≡ Some v → FilesJoin 0 v.files file.from }
        requires unnamed { Has (HasFile file.number) self.old → ⊥ }
        requires few { length self.old < MAX_VERSIONS }
        ensures ok { IfOk result (λ id. (v : Version) → entry self.old version ≡ Some v → IsMade self.old (v.files ++ file ∷ []) self.new id) }
        ensures err { OnErr result (self.new ≡ self.old) }
    {
        let kept = self.versions.get(version.0);
        let files = with_last(self.alloc, kept.files(), file)?;
        self.append(files)
    }

    /// A new Version with that file alone, which covers what the files of the Version cover. The Version that
    /// it follows stays.
    pub fn replace_all(
        &mut self,
        version: VersionId,
        file: FileMeta,
    ) -> Result<VersionId, OutOfMemory>
        requires live { IsLiveVersion self.old version }
        requires begins { file.from ≡ 0 }
        requires covers { (v : Version) → entry self.old version ≡ Some v → FilesJoin 0 v.files file.to }
        requires unnamed { Has (HasFile file.number) self.old → ⊥ }
        requires few { length self.old < MAX_VERSIONS }
        ensures ok { IfOk result (IsMade self.old (file ∷ []) self.new) }
        ensures err { OnErr result (self.new ≡ self.old) }
    {
        let files = with_last(self.alloc, &[], file)?;
        self.append(files)
    }

    /// Undoes the making of the last Version, which was not released. Takes no memory.
    pub fn take_back(&mut self)
        requires { IsLiveVersion self.old (length self.old) }
        ensures { (last : Version) × (self.old ≡ self.new ++ last ∷ []) }
    {
        self.versions.take_back();
    }

    /// The files of the Version, the oldest first. Takes no memory.
    pub fn files(&self, version: VersionId) -> &[FileMeta]
        requires { IsLiveVersion self.now version }
        ensures value { (v : Version) → entry self.now version ≡ Some v → result.now ≡ v.files }
        ensures joins { (to : ℕ) × FilesJoin 0 result.now to }
    {
        self.versions.get(version.0).files()
    }

    /// The Version is Gone. Gives the numbers of its files that no other Version names, the oldest first, each
    /// once. Takes no memory, since the vector was made with the Version.
    pub fn release(&mut self, version: VersionId) -> Vec<FileNumber>
        requires { IsLiveVersion self.old version }
        ensures { IsReleased self.old version self.new result.items }
    {
        self.versions.release(version.0)
    }

    /// A new Version with these files, whose ranges join and whose numbers differ.
    pub fn append(&mut self, files: Vec<FileMeta>) -> Result<VersionId, OutOfMemory>
        requires sound { IsSound (live_version files.items) }
        requires few { length self.old < MAX_VERSIONS }
        ensures ok { IfOk result (IsMade self.old files.items self.new) }
        ensures err { OnErr result (self.new ≡ self.old) }
    {
        let version = KeptVersion::new(self.alloc, files)?;
        Ok(VersionId(self.versions.add(version)?))
    }
}

// The files and one more, in no more memory than they need.
fn with_last(
    alloc: Global,
    files: &[FileMeta],
    file: FileMeta,
) -> Result<Vec<FileMeta>, OutOfMemory>
    ensures { IfOk result (λ v. v.items ≡ files.now ++ file ∷ []) }
{
    let mut more = Vec::with_capacity(alloc, files.len().saturating_add(1))?;
    more.extend_from_slice(files)?;
    more.push(file)?;
    Ok(more)
}
