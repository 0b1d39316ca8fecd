// The files that may be copied while there is a hold.
ghost use Rattle.std.specs.Prelude.{◌≡◌, IfOk, slice_index};
ghost use Rattle.sv_model.specs.Numbers.{AreInOrder};
ghost use Rattle.sv_model.specs.Refusals.{Refuses};
ghost use Rattle.sv_files.specs.Calls.{unhold_refusal};
ghost use Rattle.sv_state.specs.Currents.{IsShownFile};
ghost use Rattle.sv_store.specs.LiveFiles.{IsCurrentFile, StandingHaveCurrents};

use crate::appends::LANE;
use crate::store::Store;
use sv_model::{FileNumber, Refusal};

impl Store {
    /// The numbers of the files of the last Versions of the families that are not dropped, ascending. These are the
    /// Versions of their currents. Refused as `NoHold` exactly where the lane has no hold. Nothing changes.
    pub fn live(&mut self) -> Result<Vec<FileNumber>, Refusal>
        ensures shown { IfOk result (λ files. AreInOrder (IsShownFile self.old.books) files.items) }
        ensures current { IfOk result (λ files. AreInOrder (IsCurrentFile self.old.books) files.items) }
        ensures have_currents { StandingHaveCurrents self.old.books }
        ensures refused { Refuses (unhold_refusal (slice_index self.old.books.files.holds 0)) result }
        ensures kept { self.new ≡ self.old }
    {
        self.state.live_files(LANE)
    }
}
