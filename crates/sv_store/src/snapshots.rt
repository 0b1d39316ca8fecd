// Snapshots.
ghost use Rattle.std.specs.Prelude.{◌≡◌, ◌+◌, IfOk, OnOk, OnErr, length};
ghost use Rattle.sv_model.specs.Refusals.{Refuses, RefusesExactly};
ghost use Rattle.sv_laws.specs.Snapping.{IsSnapped};
ghost use Rattle.sv_journal.specs.Calls.{snap_refusal, snapshot_refusal};
ghost use Rattle.sv_state.specs.Follows.{Follows};
ghost use Rattle.sv_state.specs.Taken.{IsEnded};

use crate::store::Store;
use sv_model::Refusal;

impl Store {
    /// A snapshot more, at the end of the journal. Gives its number and its place. Refused as `RegisterFull`, then as
    /// `TooManySnapshots`.
    pub fn snap(&mut self) -> Result<(u32, u64), Refusal>
        ensures made { IfOk result (λ made. IsSnapped self.old.books self.new.books × (made.0 ≡ length self.old.books.snapshots + 1) × (made.1 ≡ length self.old.books.journal)) }
        ensures refused { Refuses (snap_refusal self.old.books.snapshots) result }
        ensures kept { OnErr result (self.new ≡ self.old) }
        ensures cells { self.new.cells ≡ self.old.cells }
        ensures follows { Follows self.old.books self.new.books }
    {
        self.state.snap()
    }

    /// Ends a Live snapshot. Refused as `NoSnapshot` exactly where the number is that of none. Takes no memory.
    pub fn unsnap(&mut self, id: u64) -> Result<(), Refusal>
        ensures ended { OnOk result (IsEnded self.old.books id self.new.books) }
        ensures refused { RefusesExactly (snapshot_refusal self.old.books.snapshots id) result }
        ensures kept { OnErr result (self.new ≡ self.old) }
        ensures cells { self.new.cells ≡ self.old.cells }
        ensures follows { Follows self.old.books self.new.books }
    {
        self.state.unsnap(id)
    }
}
