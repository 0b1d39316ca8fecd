// Families are made and dropped, and handles of them taken.
ghost use Rattle.std.specs.Prelude.{◌≡◌, ◌∷◌, [], IfOk, IsSomeAnd, OnErr, length, slice_get};
ghost use Rattle.sv_model.specs.Families.{IsOwn, IsStanding};
ghost use Rattle.sv_model.specs.Refusals.{Refuses, RefusesExactly, first_due};
ghost use Rattle.sv_cells.specs.Calls.{memtables_refusal};
ghost use Rattle.sv_registry.specs.Calls.{make_refusal};
ghost use Rattle.sv_family.specs.Calls.{IsFreshTo, new_family};
ghost use Rattle.sv_family.specs.Refused.{create_refusal, drop_refusal, open_refusal};
ghost use Rattle.sv_laws.specs.Families.{IsDropped, IsOpened};
ghost use Rattle.sv_laws.specs.NewCurrents.{IsFamilyMade};
ghost use Rattle.sv_state.specs.Follows.{Follows};

use crate::appends::LANE;
use crate::filling::fill;
use crate::store::Store;
use sv_model::{FamilyId, Name, Refusal};

impl Store {
    /// Makes a family of this name, of which the lane has a handle, with its first memtable in a cell. Refused as
    /// `NameTaken`, `AlreadyOpen`, `TooManyFamilies`, `TooManyMemtables`, `RegisterFull` and `TooManyLive`, in this order.
    pub fn create(&mut self, name: &Name) -> Result<FamilyId, Refusal>
        ensures made { IfOk result (λ id. (id ≡ length self.old.books.families) × IsFamilyMade self.old.books self.new.books (new_family 0 name.now)) }
        ensures refused { Refuses (first_due (create_refusal self.old.books.families 0 name.now ∷ memtables_refusal self.old.books.memtables ∷ make_refusal self.old.books.supers ∷ [])) result }
        ensures kept { OnErr result (self.new ≡ self.old) }
        ensures follows { Follows self.old.books self.new.books }
    {
        let install = match self.state.create(LANE, name) {
            Ok(install) => install,
            Err(refusal) => return Err(refusal),
        };
        fill(self.alloc, &mut self.cells, install.vacant);
        Ok(install.family)
    }

    /// Gives the lane a handle of the family that has the name and is not dropped. Refused as `AlreadyOpen`, then as
    /// `NoFamily`. Takes no memory.
    pub fn open_family(&mut self, name: &Name) -> Result<FamilyId, Refusal>
        ensures opened { IfOk result (λ id. IsOpened self.old.books self.new.books id 0) }
        ensures fresh { IfOk result (IsFreshTo 0 self.old.books.families) }
        ensures standing { IfOk result (λ id. IsSomeAnd (slice_get self.old.books.families id) (IsStanding name.now)) }
        ensures refused { RefusesExactly (open_refusal self.old.books.families 0 name.now) result }
        ensures kept { OnErr result (self.new ≡ self.old) }
        ensures cells { self.new.cells ≡ self.old.cells }
        ensures follows { Follows self.old.books self.new.books }
    {
        self.state.open_family(LANE, name)
    }

    /// Drops the family of the lane's handle of the name, which is read through handles that stand. Refused as
    /// `IsDefault`, then as `NotOpen` or `NoFamily` without a handle, then as `Dropped`. Takes no memory.
    pub fn drop_family(&mut self, name: &Name) -> Result<FamilyId, Refusal>
        ensures dropped { IfOk result (λ id. IsDropped self.old.books self.new.books id 0) }
        ensures own { IfOk result (λ id. IsSomeAnd (slice_get self.old.books.families id) (IsOwn 0 name.now)) }
        ensures refused { RefusesExactly (drop_refusal self.old.books.families 0 name.now) result }
        ensures kept { OnErr result (self.new ≡ self.old) }
        ensures cells { self.new.cells ≡ self.old.cells }
        ensures follows { Follows self.old.books self.new.books }
    {
        self.state.drop_family(LANE, name)
    }
}
