// Compactions.
ghost use Rattle.std.specs.Prelude.{IfErr, IfOk};
ghost use Rattle.sv_file_checks.specs.Faults.{CountsFault};
ghost use Rattle.sv_state.specs.Follows.{Follows};
ghost use Rattle.sv_store.specs.Compacting.{CompactRefused, Compacts};
ghost use Rattle.sv_store.specs.HeldFiles.{IsHeld, LeavesOthers};

use crate::appends::LANE;
use crate::compaction_files::merge_family;
use crate::store::Store;
use sv_dir::Dir;
use sv_model::{FileMeta, Name, Refusal};

impl Store {
    /// Writes the files of the family of the lane's handle of the name as one file, which alone is its new Version: of
    /// each key it has what all writes below the newest file's end leave, and what Live snapshots read. Gives what it
    /// covers.
    ///
    /// Refused as `NotOpen` or `NoFamily` without a handle, then as `Dropped`, `NothingToCompact` and `RegisterFull`;
    /// nothing is done then. After that only out of memory, a failure of the directory, a file that is not there or is
    /// not the one that was written, and `RegisterFull` or `TooManyLive` stop it: the new file's number is Obsolete
    /// then, and the family's Version is as it was.
    pub fn compact<D: Dir>(&mut self, dir: &mut D, name: &Name) -> Result<FileMeta, Refusal>
        ensures compacted { IfOk result (Compacts self.old.books self.new.books (D.files dir.old) (D.files dir.new) name.now) }
        ensures refused { IfErr result (CompactRefused self.old self.new (D.files dir.old) (D.files dir.new) name.now) }
        ensures faults { CountsFault result (D.faults dir.old) (D.faults dir.new) }
        ensures held { IsHeld self.old.books (D.files dir.old) → IsHeld self.new.books (D.files dir.new) }
        ensures others { LeavesOthers self.old.books self.new.books (D.files dir.old) (D.files dir.new) }
        ensures follows { Follows self.old.books self.new.books }
    {
        let file = match self.state.compact_plan(LANE, name) {
            Ok(file) => file,
            Err(refusal) => return Err(refusal),
        };
        let (state, cells) = (&mut self.state, &mut self.cells);
        merge_family(self.alloc, state, cells, dir, file)
    }
}
