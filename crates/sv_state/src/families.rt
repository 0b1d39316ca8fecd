// Handles of families, and their drop.
ghost use Rattle.std.specs.Prelude.{◌≡◌, ◌<◌, IfOk, OnErr, IsSomeAnd, slice_get};
ghost use Rattle.sv_model.specs.Families.{IsOwn, IsStanding};
ghost use Rattle.sv_model.specs.Refusals.{RefusesExactly};
ghost use Rattle.sv_laws.specs.Families.{IsDropped, IsOpened};
ghost use Rattle.sv_family.specs.Calls.{IsFreshTo};
ghost use Rattle.sv_family.specs.Refused.{drop_refusal, find_refusal, open_refusal};
ghost use Rattle.sv_state.specs.Follows.{Follows};

use crate::state::State;
use sv_model::{FamilyId, Name, Refusal};

impl State {
    /// The family of the lane's handle of the name. Refused as `NotOpen` where the lane has none and a family that is
    /// not dropped has the name, as `NoFamily` where none has it either. The lane is below 32. Takes no memory.
    pub fn find(&self, lane: u8, name: &Name) -> Result<FamilyId, Refusal>
        requires { lane < 32 }
        ensures found { IfOk result (λ id. IsSomeAnd (slice_get self.now.books.families id) (IsOwn lane name.now)) }
        ensures refused { RefusesExactly (find_refusal self.now.books.families lane name.now) result }
    {
        self.families.find(lane, name)
    }

    /// Gives the lane, which is below 32, a handle of the family that has the name and is not dropped. Refused as
    /// `AlreadyOpen` where the lane has a handle of the name, then as `NoFamily`. Takes no memory.
    pub fn open_family(&mut self, lane: u8, name: &Name) -> Result<FamilyId, Refusal>
        requires { lane < 32 }
        ensures opened { IfOk result (λ id. IsOpened self.old.books self.new.books id lane) }
        ensures standing { IfOk result (λ id. IsSomeAnd (slice_get self.old.books.families id) (IsStanding name.now)) }
        ensures fresh { IfOk result (IsFreshTo lane self.old.books.families) }
        ensures refused { RefusesExactly (open_refusal self.old.books.families lane name.now) result }
        ensures kept { OnErr result (self.new ≡ self.old) }
        ensures spare { self.new.spare ≡ self.old.spare }
        ensures follows { Follows self.old.books self.new.books }
    {
        self.families.open_family(lane, name)
    }

    /// Drops the family of the lane's handle of the name. Refused as `IsDefault` where the name is `default`, then as
    /// `find`, then as `Dropped`. The lane is below 32. Takes no memory.
    pub fn drop_family(&mut self, lane: u8, name: &Name) -> Result<FamilyId, Refusal>
        requires { lane < 32 }
        ensures dropped { IfOk result (λ id. IsDropped self.old.books self.new.books id lane) }
        ensures own { IfOk result (λ id. IsSomeAnd (slice_get self.old.books.families id) (IsOwn lane name.now)) }
        ensures refused { RefusesExactly (drop_refusal self.old.books.families lane name.now) result }
        ensures kept { OnErr result (self.new ≡ self.old) }
        ensures spare { self.new.spare ≡ self.old.spare }
        ensures follows { Follows self.old.books self.new.books }
    {
        self.families.drop_family(lane, name)
    }
}
