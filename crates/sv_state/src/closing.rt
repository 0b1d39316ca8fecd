// A family has no current any more, and a SuperVersion goes.
ghost use Rattle.std.specs.Prelude.{◌≡◌, ◌<◌, ◌↔◌, IfOk, IfSome, IsTrue, OnErr, length};
ghost use Rattle.std.specs.Option.{option_map};
ghost use Rattle.sv_model.specs.Refusals.{RefusesExactly};
ghost use Rattle.sv_laws.specs.Families.{IsCurrentEnded, IsForgotten};
ghost use Rattle.sv_family.specs.Refused.{release_refusal};
ghost use Rattle.sv_state.specs.Currents.{CanEnd, CanRetire, OwnHaveCurrents};
ghost use Rattle.sv_state.specs.Follows.{Follows};
ghost use Rattle.sv_state.specs.Gone.{IsFree, IsLastOr, IsReleasedAs, SuperGoes, TellsEnd};

use crate::installs::{Install, take_current};
use crate::state::State;
use arrayvec::ArrayVec;
use sv_family::Families;
use sv_model::{FamilyId, Name, Pack, Refusal, Top, VersionId};

impl State {
    /// Takes the lane's handle of the name back. Gives an install where the family is retired by it: it has no current
    /// any more. Refused as `IsDefault` where the name is `default`, then as `find`. The lane is below 32. Takes no
    /// memory.
    pub fn release(&mut self, lane: u8, name: &Name) -> Result<Option<Install>, Refusal>
        requires lane { lane < 32 }
        requires current { OwnHaveCurrents self.old.books lane name.now }
        ensures released { IfOk result (λ install. IsReleasedAs self.old.books self.new.books lane name.now (option_map (λ i. i.family) install)) }
        ensures tells { IfOk result (λ install. IfSome install (TellsEnd self.old.books)) }
        ensures refused { RefusesExactly (release_refusal self.old.books.families lane name.now) result }
        ensures kept { OnErr result (self.new ≡ self.old) }
        ensures spare { self.new.spare ≡ self.old.spare }
        ensures follows { Follows self.old.books self.new.books }
    {
        let family = match self.families.release(lane, name) {
            Ok(family) => family,
            Err(refusal) => return Err(refusal),
        };
        if !self.families.may_retire(family) {
            return Ok(None);
        }
        let old = take_current(&mut self.tops, &mut self.held, family);
        Ok(Some(Install::ended(family, old)))
    }

    /// At the close: a family that is not dropped has no current any more. Its last Version stays named. Takes no memory.
    pub fn end_current(&mut self, family: FamilyId) -> Install
        requires { CanEnd self.old.books family }
        ensures ended { IsCurrentEnded self.old.books self.new.books family }
        ensures family { result.family ≡ family }
        ensures tells { TellsEnd self.old.books result }
        ensures spare { self.new.spare ≡ self.old.spare }
        ensures follows { Follows self.old.books self.new.books }
    {
        let old = take_current(&mut self.tops, &mut self.held, family);
        Install::ended(family, old)
    }

    /// At the close: a dropped family is retired, whichever lanes have handles of it. It has no current any more. Takes
    /// no memory.
    pub fn retire(&mut self, family: FamilyId) -> Install
        requires { CanRetire self.old.books family }
        ensures retired { IsForgotten self.old.books self.new.books family }
        ensures family { result.family ≡ family }
        ensures tells { TellsEnd self.old.books result }
        ensures spare { self.new.spare ≡ self.old.spare }
        ensures follows { Follows self.old.books self.new.books }
    {
        self.families.retire(family);
        let old = take_current(&mut self.tops, &mut self.held, family);
        Install::ended(family, old)
    }

    /// The SuperVersion, which is Live and current of no family, is Gone, with all that it alone named; its Version
    /// stays where it is the last one of a family that is not retired. Gives the cells of the memtables that went. Takes
    /// no memory.
    pub fn cleanup(&mut self, pack: Pack) -> ArrayVec<u8, 64>
        requires { IsFree self.old.books pack }
        ensures gone { (free : IsFree self.old.books pack) → SuperGoes self.old.books free.serial free.it self.new.books result.items }
        ensures spare { self.new.spare ≡ self.old.spare }
        ensures follows { Follows self.old.books self.new.books }
    {
        let Some(descriptor) = self.objects.supers.descriptor(pack.serial) else {
            unreachable!();
        };
        let version = descriptor.version;
        let last = is_last(&self.families, self.tops.as_slice(), version);
        self.objects.clean(self.alloc, pack, last)
    }
}

// Whether the Version is the last one of a family that is not retired.
fn is_last(families: &Families, tops: &[Top], version: VersionId) -> bool
    requires { length tops.now ≡ length families.now }
    ensures { IsLastOr version families.now tops.now result }
{
    for index in 0..families.len() {
        if !has_last(&tops[index], version) {
            continue;
        }
        if !families.may_retire(FamilyId(index as u8)) {
            return true;
        }
    }
    false
}

fn has_last(top: &Top, version: VersionId) -> bool
    ensures { IsTrue result ↔ (top.now.last ≡ version) }
{
    top.last == version
}
