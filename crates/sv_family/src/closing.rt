// Families that no lane is to use any more.
ghost use Rattle.std.specs.Prelude.{IsSomeAnd, slice_get};
ghost use Rattle.sv_model.specs.Families.{AreFamilies};
ghost use Rattle.sv_family.specs.Calls.{IsChanged, IsGivenUp, without_handles};

use crate::families::Families;
use sv_model::FamilyId;

impl Families {
    /// Takes the handles of all lanes back from a dropped family, which is retired then. Takes no memory.
    pub fn retire(&mut self, family: FamilyId)
        requires { IsSomeAnd (slice_get self.old family) IsGivenUp }
        ensures changed { IsChanged IsGivenUp without_handles self.old family self.new }
        ensures lawful { AreFamilies self.new }
    {
        let record = &mut self.families[family.0 as usize];
        record.handles = [false; 32];
    }
}
