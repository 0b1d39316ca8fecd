// Flushes.
ghost use Rattle.std.specs.Prelude.{IfErr, IfOk};
ghost use Rattle.sv_file_checks.specs.Faults.{CountsFault};
ghost use Rattle.sv_state.specs.Follows.{Follows};
ghost use Rattle.sv_store.specs.Flushing.{FlushRefused, Flushes};
ghost use Rattle.sv_store.specs.HeldFiles.{IsHeld, LeavesOthers};

use crate::appends::LANE;
use crate::flush_files::flush_family;
use crate::store::Store;
use sv_dir::Dir;
use sv_model::{FileMeta, Name, Refusal};

impl Store {
    /// Writes the rows of the family of the lane's handle of the name that are in no file yet as one file, the last of
    /// its new Version. A switch comes first where the active memtable has a row. Gives what the file covers.
    ///
    /// Refused as `NotOpen` or `NoFamily` without a handle, then as `Dropped`, `NothingToFlush`, `RegisterFull`, and
    /// where a switch is due as `TooManyMemtables` and `TooManyLive`; nothing is done then. After that only out of
    /// memory, a failure of the directory, and `RegisterFull` or `TooManyLive` stop it: the switch stays done, and the
    /// file's number, once there is one, is Obsolete.
    pub fn flush<D: Dir>(&mut self, dir: &mut D, name: &Name) -> Result<FileMeta, Refusal>
        ensures flushed { IfOk result (Flushes self.old.books self.new.books (D.files dir.old) (D.files dir.new) name.now) }
        ensures refused { IfErr result (FlushRefused self.old self.new (D.files dir.old) (D.files dir.new) name.now) }
        ensures faults { CountsFault result (D.faults dir.old) (D.faults dir.new) }
        ensures held { IsHeld self.old.books (D.files dir.old) → IsHeld self.new.books (D.files dir.new) }
        ensures others { LeavesOthers self.old.books self.new.books (D.files dir.old) (D.files dir.new) }
        ensures follows { Follows self.old.books self.new.books }
    {
        let plan = match self.state.flush_plan(LANE, name) {
            Ok(plan) => plan,
            Err(refusal) => return Err(refusal),
        };
        let (state, cells) = (&mut self.state, &mut self.cells);
        flush_family(self.alloc, state, cells, dir, plan.family, plan.cell)
    }
}
