// A Version as a record of a register of holders: it names its files by their numbers.
ghost use Rattle.std.specs.Prelude.{◌≡◌, ◌<◌, ◌≤◌, [], length, true, IfOk};
ghost use Rattle.sv_version.specs.Changes.{live_version};

use std::alloc::Global;
use std::marker::Model;
use std::mem;
use sv_model::{FileMeta, FileNumber, Holder, Items, OutOfMemory, Version};

/// A Version of the register. Contracts see the Version. While it is Live there is room beside it for the numbers of
/// its files, so that its release takes no memory.
#[derive(Drop)]
pub struct KeptVersion {
    version: Version,
    room: Vec<FileNumber>,
}

impl Model for KeptVersion {
    ghost use Rattle.std.specs.Prelude.{◌≡◌, ◌≤◌, true, [], length, vec_capacity};
    ghost use Rattle.sv_model.specs.declared.records.Version.{Version};

    ghost Value = { Version };

    ghost view = { λ s. s.version };

    ghost invariant = { λ s. s.version.live ≡ true → (s.room.items ≡ []) × (length s.version.files ≤ vec_capacity s.room) };
}

impl KeptVersion {
    /// A Live Version with these files.
    pub fn new(alloc: Global, files: Vec<FileMeta>) -> Result<KeptVersion, OutOfMemory>
        ensures { IfOk result (λ kept. kept ≡ live_version files.items) }
    {
        let room = Vec::with_capacity(alloc, files.len())?;
        let version = Version {
            files: Items::from_vec(files),
            live: true,
        };
        Ok(KeptVersion { version, room })
    }

    /// Its files, the oldest first. Takes no memory.
    pub fn files(&self) -> &[FileMeta]
        ensures { result.now ≡ self.now.files }
    {
        self.version.files.as_slice()
    }
}

impl Holder for KeptVersion {
    ghost use Rattle.std.specs.Prelude.{vec_capacity};
    ghost use Rattle.sv_model.specs.Named.{numbers_of};
    ghost use Rattle.sv_version.specs.Changes.{gone_version};
    ghost use Rattle.sv_version.specs.KeptVersions.{IsSound, sound_seldom, gone_sound};

    type Freed = Vec<FileNumber>;

    ghost numbers = { λ v. numbers_of v.files };

    ghost lives = { λ v. v.live };

    ghost sound = { IsSound };

    ghost gone = { gone_version };

    ghost handed = { λ freed. freed.items };

    ghost room = { λ freed. vec_capacity freed };

    fn count(&self) -> usize {
        self.files().len()
    }

    fn number(&self, at: usize) -> u64 {
        let number = self.files()[at].number;
        number.0
    }

    fn end(&mut self) -> Vec<FileNumber> {
        self.version.live = false;
        let alloc = *self.room.allocator();
        mem::replace(&mut self.room, Vec::new(alloc))
    }

    fn give(&self, at: usize, freed: &mut Vec<FileNumber>) {
        freed.push_reserved(self.files()[at].number);
    }

    ghost seldom = { sound_seldom };

    ghost gone_is = { gone_sound };
}
