// Holds: while one stands, no file is removed.
ghost use Rattle.std.specs.Prelude.{◌≡◌, ◌+◌, IfOk, OnErr, slice_index};
ghost use Rattle.sv_model.specs.Refusals.{RefusesExactly};
ghost use Rattle.sv_files.specs.Calls.{hold_refusal, unhold_refusal, with_hold};
ghost use Rattle.sv_state.specs.Follows.{Follows};

use crate::appends::LANE;
use crate::store::Store;
use sv_model::Refusal;

impl Store {
    /// One hold more. Answers how many the lane has after. Refused as `TooManyHolds` exactly where it has 255. Takes no
    /// memory.
    pub fn hold(&mut self) -> Result<u32, Refusal>
        ensures held { IfOk result (λ count. (count ≡ slice_index self.old.books.files.holds 0 + 1) × (self.new.books.files ≡ with_hold self.old.books.files 0 count)) }
        ensures refused { RefusesExactly (hold_refusal (slice_index self.old.books.files.holds 0)) result }
        ensures kept { OnErr result (self.new ≡ self.old) }
        ensures rest { self.new ≡ record self.old { books = record self.old.books { files = self.new.books.files } } }
        ensures follows { Follows self.old.books self.new.books }
    {
        self.state.hold(LANE)
    }

    /// One hold less. Answers how many the lane has after. Refused as `NoHold` exactly where it has none. Takes no
    /// memory.
    pub fn unhold(&mut self) -> Result<u32, Refusal>
        ensures ended { IfOk result (λ count. (count + 1 ≡ slice_index self.old.books.files.holds 0) × (self.new.books.files ≡ with_hold self.old.books.files 0 count)) }
        ensures refused { RefusesExactly (unhold_refusal (slice_index self.old.books.files.holds 0)) result }
        ensures kept { OnErr result (self.new ≡ self.old) }
        ensures rest { self.new ≡ record self.old { books = record self.old.books { files = self.new.books.files } } }
        ensures follows { Follows self.old.books self.new.books }
    {
        self.state.unhold(LANE)
    }
}
