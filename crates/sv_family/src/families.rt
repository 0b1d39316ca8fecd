// The families by id, with their handles.
ghost use Rattle.std.specs.Prelude.{◌≡◌, ◌<◌, ◌≤◌, ◌∷◌, ◌++◌, [], Some, length, slice_get, true, false, IfOk, IfSome, IsSomeAnd, OnErr, is_some};
ghost use Rattle.std.specs.Option.{option_map};
ghost use Rattle.sv_model.specs.declared.records.Family.{Family};
ghost use Rattle.sv_model.specs.Families.{AreFamilies, IsOwn, IsOwnStanding, IsStanding, default_family, greatest_of, is_retired};
ghost use Rattle.sv_model.specs.Refusals.{Refuses, RefusesExactly};
ghost use Rattle.sv_family.specs.Calls.{IsChanged, IsCreated, IsFreshTo, as_dropped, as_set, with_handle};
ghost use Rattle.sv_family.specs.Refused.{change_refusal, create_refusal, drop_refusal, find_refusal, has_handle, open_refusal, release_refusal, set_refusal, stands};

use crate::making::{default_family, new_family};
use crate::ranges;
use crate::sought::{is_default, is_retired, place_of_own, place_of_standing};
use std::alloc::Global;
use std::marker::Model;
use sv_model::{
    Family, FamilyId, MAX_FAMILIES, MAX_LANES, Name, OptionName, Options, OutOfMemory, Refusal,
};

/// The families ever made. Contracts see the list of their records, by id from 0.
#[derive(Drop)]
pub struct Families {
    pub(crate) families: Vec<Family>,
}

impl Model for Families {
    ghost use Rattle.std.specs.Prelude.{List};
    ghost use Rattle.sv_model.specs.declared.records.Family.{Family};
    ghost use Rattle.sv_model.specs.Families.{AreFamilies};

    ghost Value = { List Family };

    ghost view = { λ f. f.families.items };

    ghost invariant = { λ f. AreFamilies f.families.items };
}

impl Families {
    /// The family `default` alone, with a handle for each of the 32 lanes.
    pub fn new(alloc: Global) -> Result<Families, OutOfMemory>
        ensures first { IfOk result (λ families. families ≡ default_family ∷ []) }
        ensures lawful { IfOk result (λ families. AreFamilies families) }
    {
        let mut families = Vec::new(alloc);
        families.push(default_family())?;
        Ok(Families { families })
    }

    /// How many families were made, dropped ones included: 1 to 16. Takes no memory.
    pub fn len(&self) -> usize
        ensures len { result ≡ length self.now }
        ensures lawful { AreFamilies self.now }
    {
        self.families.len()
    }

    /// The name of the family. Takes no memory.
    pub fn name(&self, family: FamilyId) -> &Name
        requires { family < length self.now }
        ensures { option_map (λ f. f.name) (slice_get self.now family) ≡ Some result.now }
    {
        &self.families[family.0 as usize].name
    }

    /// The options of the family. Takes no memory.
    pub fn options(&self, family: FamilyId) -> Options
        requires { family < length self.now }
        ensures { option_map (λ f. f.options) (slice_get self.now family) ≡ Some result }
    {
        self.families[family.0 as usize].options
    }

    /// Whether the family is dropped. Takes no memory.
    pub fn is_dropped(&self, family: FamilyId) -> bool
        requires { family < length self.now }
        ensures { option_map (λ f. f.dropped) (slice_get self.now family) ≡ Some result }
    {
        self.families[family.0 as usize].dropped
    }

    /// Whether the family is dropped and no lane has a handle of it. Takes no memory.
    pub fn may_retire(&self, family: FamilyId) -> bool
        requires { family < length self.now }
        ensures { option_map (λ f. is_retired f) (slice_get self.now family) ≡ Some result }
    {
        is_retired(&self.families[family.0 as usize])
    }

    /// The refusal that `create` would answer: `NameTaken` where a family that is not dropped has the name, then
    /// `AlreadyOpen` where the lane, which is below 32, has a handle of the name, then `TooManyFamilies` where 16
    /// were made. Takes no memory.
    pub fn create_refusal(&self, lane: u8, name: &Name) -> Option<Refusal>
        requires { lane < MAX_LANES }
        ensures { result ≡ create_refusal self.now lane name.now }
    {
        if self.standing(name).is_some() {
            return Some(Refusal::NameTaken);
        }
        if self.own(lane, name).is_some() {
            return Some(Refusal::AlreadyOpen);
        }
        if self.families.len() >= MAX_FAMILIES {
            return Some(Refusal::TooManyFamilies);
        }
        None
    }

    /// Makes a family of this name, under the next id, with the first options and a handle for this lane alone,
    /// which is below 32. Refused as `create_refusal` says; a refusal leaves the families as they were.
    pub fn create(&mut self, lane: u8, name: &Name) -> Result<FamilyId, Refusal>
        requires { lane < MAX_LANES }
        ensures made { IfOk result (λ id. IsCreated self.old lane name.now id self.new) }
        ensures refused { Refuses (create_refusal self.old lane name.now) result }
        ensures kept { OnErr result (self.new ≡ self.old) }
        ensures lawful { AreFamilies self.new }
    {
        if let Some(refusal) = self.create_refusal(lane, name) {
            return Err(refusal);
        }
        let family = new_family(lane, name)?;
        let id = self.families.len() as u8;
        if self.families.push(family).is_err() {
            return Err(Refusal::OutOfMemory);
        }
        Ok(FamilyId(id))
    }

    /// Undoes the create just done: the family made last, which is not the first, was never made. Takes no memory.
    pub fn take_back(&mut self)
        requires { 1 < length self.old }
        ensures undone { (last : Family) × (self.old ≡ self.new ++ last ∷ []) }
        ensures lawful { AreFamilies self.new }
    {
        self.families.pop();
    }

    /// The family of the lane's handle of the name. Refused as `NotOpen` where the lane has none and a family
    /// that is not dropped has the name, as `NoFamily` where none has it either. The lane is below 32. Takes no
    /// memory.
    pub fn find(&self, lane: u8, name: &Name) -> Result<FamilyId, Refusal>
        requires { lane < MAX_LANES }
        ensures found { IfOk result (λ id. IsSomeAnd (slice_get self.now id) (IsOwn lane name.now)) }
        ensures refused { RefusesExactly (find_refusal self.now lane name.now) result }
        ensures lawful { AreFamilies self.now }
    {
        if let Some(own) = self.own(lane, name) {
            return Ok(own);
        }
        if self.standing(name).is_some() {
            return Err(Refusal::NotOpen);
        }
        Err(Refusal::NoFamily)
    }

    /// The same, for a change of the family: refused as `find`, then as `Dropped` where the family is dropped.
    pub fn find_undropped(&self, lane: u8, name: &Name) -> Result<FamilyId, Refusal>
        requires { lane < MAX_LANES }
        ensures found { IfOk result (λ id. IsSomeAnd (slice_get self.now id) (IsOwnStanding lane name.now)) }
        ensures refused { RefusesExactly (change_refusal self.now lane name.now) result }
    {
        let id = self.find(lane, name)?;
        if self.is_dropped(id) {
            return Err(Refusal::Dropped);
        }
        Ok(id)
    }

    /// Gives the lane, which is below 32, a handle of the family that has the name and is not dropped. Refused as
    /// `AlreadyOpen` where the lane has a handle of the name, then as `NoFamily`; a refusal leaves the families
    /// as they were. Takes no memory.
    pub fn open_family(&mut self, lane: u8, name: &Name) -> Result<FamilyId, Refusal>
        requires { lane < MAX_LANES }
        ensures changed { IfOk result (λ id. IsChanged (IsStanding name.now) (with_handle lane true) self.old id self.new) }
        ensures fresh { IfOk result (λ id. IsFreshTo lane self.old id) }
        ensures refused { RefusesExactly (open_refusal self.old lane name.now) result }
        ensures kept { OnErr result (self.new ≡ self.old) }
        ensures lawful { AreFamilies self.new }
    {
        if self.own(lane, name).is_some() {
            return Err(Refusal::AlreadyOpen);
        }
        let Some(id) = self.standing(name) else {
            return Err(Refusal::NoFamily);
        };
        let family = &mut self.families[id.0 as usize];
        family.handles[lane as usize] = true;
        Ok(id)
    }

    /// Takes the lane's handle of the name back. Refused as `IsDefault` where the name is `default`, then as
    /// `find`; a refusal leaves the families as they were. The lane is below 32. Takes no memory.
    pub fn release(&mut self, lane: u8, name: &Name) -> Result<FamilyId, Refusal>
        requires { lane < MAX_LANES }
        ensures changed { IfOk result (λ id. IsChanged (IsOwn lane name.now) (with_handle lane false) self.old id self.new) }
        ensures other { IfOk result (λ id. 0 < id) }
        ensures refused { RefusesExactly (release_refusal self.old lane name.now) result }
        ensures kept { OnErr result (self.new ≡ self.old) }
        ensures lawful { AreFamilies self.new }
    {
        let id = self.find_other(lane, name)?;
        let family = &mut self.families[id.0 as usize];
        family.handles[lane as usize] = false;
        Ok(id)
    }

    /// Drops the family of the lane's handle of the name. Its name is free, and all handles stay. Refused as
    /// `IsDefault` where the name is `default`, then as `find_undropped`; a refusal leaves the families as they
    /// were. The lane is below 32. Takes no memory.
    pub fn drop_family(&mut self, lane: u8, name: &Name) -> Result<FamilyId, Refusal>
        requires { lane < MAX_LANES }
        ensures changed { IfOk result (λ id. IsChanged (IsOwnStanding lane name.now) as_dropped self.old id self.new) }
        ensures other { IfOk result (λ id. 0 < id) }
        ensures refused { RefusesExactly (drop_refusal self.old lane name.now) result }
        ensures kept { OnErr result (self.new ≡ self.old) }
        ensures lawful { AreFamilies self.new }
    {
        let id = self.find_other(lane, name)?;
        if self.is_dropped(id) {
            return Err(Refusal::Dropped);
        }
        let family = &mut self.families[id.0 as usize];
        family.dropped = true;
        Ok(id)
    }

    /// The family whose option `set_option` would set, or the refusal that it would answer: `BadOption` where the
    /// value is outside the option's range, then as `find_undropped`. The lane is below 32. Takes no memory.
    pub fn check_option(
        &self,
        lane: u8,
        name: &Name,
        option: OptionName,
        value: u64,
    ) -> Result<FamilyId, Refusal>
        requires { lane < MAX_LANES }
        ensures found { IfOk result (λ id. IsSomeAnd (slice_get self.now id) (IsOwnStanding lane name.now)) }
        ensures within { IfOk result (λ id. value ≤ greatest_of option) }
        ensures refused { RefusesExactly (set_refusal self.now lane name.now option value) result }
    {
        if let Some(refusal) = ranges::refusal(option, value) {
            return Err(refusal);
        }
        self.find_undropped(lane, name)
    }

    /// Sets an option of the family of the lane's handle of the name. Refused as `check_option` says; a refusal
    /// leaves the families as they were. The lane is below 32. Takes no memory.
    pub fn set_option(
        &mut self,
        lane: u8,
        name: &Name,
        option: OptionName,
        value: u64,
    ) -> Result<FamilyId, Refusal>
        requires { lane < MAX_LANES }
        ensures changed { IfOk result (λ id. IsChanged (IsOwnStanding lane name.now) (as_set option value) self.old id self.new) }
        ensures refused { RefusesExactly (set_refusal self.old lane name.now option value) result }
        ensures kept { OnErr result (self.new ≡ self.old) }
        ensures lawful { AreFamilies self.new }
    {
        let id = self.check_option(lane, name, option, value)?;
        let family = &mut self.families[id.0 as usize];
        family.options = ranges::with_option(family.options, option, value);
        Ok(id)
    }

    // The same as `find`, but `default` is refused first.
    fn find_other(&self, lane: u8, name: &Name) -> Result<FamilyId, Refusal>
        requires { lane < MAX_LANES }
        ensures found { IfOk result (λ id. IsSomeAnd (slice_get self.now id) (IsOwn lane name.now)) }
        ensures other { IfOk result (λ id. 0 < id) }
        ensures refused { RefusesExactly (release_refusal self.now lane name.now) result }
        ensures lawful { AreFamilies self.now }
    {
        // Read first, so that the laws of the families are known in each answer.
        let _ = &self.families;
        if is_default(name) {
            return Err(Refusal::IsDefault);
        }
        self.find(lane, name)
    }

    // The family of the lane's handle of the name.
    fn own(&self, lane: u8, name: &Name) -> Option<FamilyId>
        requires { lane < MAX_LANES }
        ensures own { IfSome result (λ id. IsSomeAnd (slice_get self.now id) (IsOwn lane name.now)) }
        ensures exact { is_some result ≡ has_handle self.now lane name.now }
        ensures lawful { AreFamilies self.now }
    {
        let at = place_of_own(&self.families, lane, name)?;
        Some(FamilyId(at as u8))
    }

    // The family that has the name and is not dropped.
    fn standing(&self, name: &Name) -> Option<FamilyId>
        ensures standing { IfSome result (λ id. IsSomeAnd (slice_get self.now id) (IsStanding name.now)) }
        ensures exact { is_some result ≡ stands self.now name.now }
        ensures lawful { AreFamilies self.now }
    {
        let at = place_of_standing(&self.families, name)?;
        Some(FamilyId(at as u8))
    }
}
