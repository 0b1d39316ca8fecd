// The plan of a compaction, which captures the number of its file.
ghost use Rattle.std.specs.Prelude.{◌≡◌, ◌<◌, ◌≤◌, [], ℕ, None, Some, OnOk, OnErr, length, slice_get};
ghost use Rattle.sv_model.specs.Refusals.{RefusesExactly};
ghost use Rattle.sv_files.specs.Calls.{capture_refusal};
ghost use Rattle.sv_laws.specs.Captures.{IsMergePlanned};
ghost use Rattle.sv_state.specs.Currents.{OwnHaveCurrents};
ghost use Rattle.sv_state.specs.Follows.{Follows};
ghost use Rattle.sv_state.specs.Planning.{Planned, compact_due, compact_refusal, compacts_nothing};

use crate::capturing::{file_over, reach};
use crate::installs::body_at;
use crate::state::State;
use sv_files::FileBook;
use sv_journal::Journal;
use sv_model::{FamilyId, FileMeta, Name, Refusal};

impl State {
    /// Captures the number of a file that is to cover the files of the current Version of the family of the lane's
    /// handle of the name, and that keeps what the Live snapshots need. Refused as `find`, then as `Dropped`, `Busy`,
    /// `NothingToCompact` and `RegisterFull`, in this order. The lane is below 32.
    pub fn compact_plan(&mut self, lane: u8, name: &Name) -> Result<FileMeta, Refusal>
        requires lane { lane < 32 }
        requires current { OwnHaveCurrents self.old.books lane name.now }
        ensures planned { Planned self.old.books lane name.now (compact_refusal self.old.books) (λ m file. IsMergePlanned self.old.books self.new.books m.family file) result }
        ensures kept { OnErr result (self.new ≡ self.old) }
        ensures spare { self.new.spare ≡ self.old.spare }
        ensures follows { Follows self.old.books self.new.books }
    {
        let family = match self.families.find_undropped(lane, name) {
            Ok(family) => family,
            Err(refusal) => return Err(refusal),
        };
        let body = body_at(&self.held, family);
        let files = body.files.as_slice();
        match due_compaction(&self.journal, &self.objects.files, family, files) {
            Ok(()) => {}
            Err(refusal) => return Err(refusal),
        }
        let to = reach(files);
        let cuts = self.journal.live_cuts(family, 0, to);
        let Ok(()) = self.metas.reserve(1) else {
            return Err(Refusal::OutOfMemory);
        };
        let number = match self.objects.files.capture(family) {
            Ok(number) => number,
            Err(refusal) => return Err(refusal),
        };
        self.metas
            .push_reserved(file_over(number, 0, to, true, &cuts));
        Ok(file_over(number, 0, to, true, &cuts))
    }
}

// What a compaction of these files meets.
fn due_compaction(
    journal: &Journal,
    numbers: &FileBook,
    family: FamilyId,
    files: &[FileMeta],
) -> Result<(), Refusal>
    requires { family < 16 }
    ensures refused { RefusesExactly (compact_due numbers.now journal.now.writes journal.now.snapshots family files.now) result }
    ensures idle { OnOk result (slice_get numbers.now.captured family ≡ Some None) }
    ensures some { OnOk result (0 < length files.now) }
    ensures may { OnOk result (capture_refusal numbers.now ≡ None) }
{
    if let Some(number) = numbers.busy(family) {
        return Err(Refusal::Busy { number: number.0 });
    }
    if compacts_nothing(journal, family, files) {
        return Err(Refusal::NothingToCompact);
    }
    if numbers.is_full() {
        return Err(Refusal::RegisterFull);
    }
    Ok(())
}

// Whether a compaction of these files would change nothing.
fn compacts_nothing(journal: &Journal, family: FamilyId, files: &[FileMeta]) -> bool
    requires { family < 16 }
    ensures { result ≡ compacts_nothing journal.now.writes journal.now.snapshots family files.now }
{
    if files.is_empty() {
        return true;
    }
    if files.len() > 1 {
        return false;
    }
    let bottom = &files[0].bottom;
    bottom.last && journal.are_live_cuts(family, bottom.cuts.as_slice())
}
