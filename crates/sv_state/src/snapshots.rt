// Snapshots.
ghost use Rattle.std.specs.Prelude.{◌≡◌, ◌<◌, ◌+◌, IfOk, MatchOption, OnOk, OnErr, length, Some, true};
ghost use Rattle.sv_model.specs.declared.records.Snapshot.{Snapshot};
ghost use Rattle.sv_model.specs.Refusals.{Refuses, RefusesExactly};
ghost use Rattle.sv_model.specs.Registers.{entry};
ghost use Rattle.sv_model.specs.Snapshots.{cut_of};
ghost use Rattle.sv_laws.specs.Snapping.{IsSnapped};
ghost use Rattle.sv_journal.specs.Calls.{AreEnded, IsNewest, snap_refusal, snapshot_refusal};
ghost use Rattle.sv_state.specs.Follows.{Follows};
ghost use Rattle.sv_state.specs.Taken.{IsCut, IsEnded};

use crate::state::State;
use sv_model::{FamilyId, Refusal};

impl State {
    /// A snapshot more, at the end of the journal. Gives its number and its place. Refused as `RegisterFull` where
    /// 1,048,576 were made, then as `TooManySnapshots` where 64 are Live.
    pub fn snap(&mut self) -> Result<(u32, u64), Refusal>
        ensures made { IfOk result (λ made. IsSnapped self.old.books self.new.books × (made.0 ≡ length self.old.books.snapshots + 1) × (made.1 ≡ length self.old.books.journal)) }
        ensures refused { Refuses (snap_refusal self.old.books.snapshots) result }
        ensures kept { OnErr result (self.new ≡ self.old) }
        ensures spare { self.new.spare ≡ self.old.spare }
        ensures follows { Follows self.old.books self.new.books }
    {
        self.journal.snap()
    }

    /// Ends a Live snapshot. Refused as `NoSnapshot` exactly where the number is that of none. Takes no memory.
    pub fn unsnap(&mut self, id: u64) -> Result<(), Refusal>
        ensures ended { OnOk result (IsEnded self.old.books id self.new.books) }
        ensures refused { RefusesExactly (snapshot_refusal self.old.books.snapshots id) result }
        ensures kept { OnErr result (self.new ≡ self.old) }
        ensures spare { self.new.spare ≡ self.old.spare }
        ensures follows { Follows self.old.books self.new.books }
    {
        self.journal.unsnap(id)
    }

    /// The number of the Live snapshot that was taken last; none exactly where none is Live. Takes no memory.
    pub fn live_snapshot(&self) -> Option<u64>
        ensures { MatchOption result (AreEnded self.now.books.snapshots) (IsNewest self.now.books.snapshots) }
    {
        self.journal.live_snapshot()
    }

    /// Where a Live snapshot reads the family: at so many of its writes. Refused as `NoSnapshot` exactly where the
    /// number is that of no Live snapshot. Takes no memory.
    pub fn cut_at(&self, id: u64, family: FamilyId) -> Result<u64, Refusal>
        requires { family < 16 }
        ensures cut { IfOk result (IsCut self.now.books id family) }
        ensures refused { RefusesExactly (snapshot_refusal self.now.books.snapshots id) result }
    {
        self.journal.cut_at(id, family)
    }
}
