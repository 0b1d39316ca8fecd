// The registry: every SuperVersion ever made, and by place the Live one that stands there.
ghost use Rattle.std.specs.Prelude.{◌≡◌, ◌+◌, ◌*◌, ◌∷◌, ◌++◌, [], ◌<◌, ◌↔◌, length, count_by, not, true, IsTrue, IfOk, OnErr, Some, None, cond};
ghost use Rattle.std.specs.Option.{option_copied, option_map};
ghost use Rattle.sv_model.specs.declared.records.SuperVersion.{SuperVersion};
ghost use Rattle.sv_model.specs.declared.refusals.Refusal.TheVariants.{RegisterFull, TooManyLive};
ghost use Rattle.sv_model.specs.Refusals.{Refuses};
ghost use Rattle.sv_model.specs.Registers.{entry, Has};
ghost use Rattle.sv_model.specs.Named.{IsLiveSuper, UsesMemtable, UsesList, UsesVersion};
ghost use Rattle.sv_registry.specs.Parts.{NamesPart};
ghost use Rattle.sv_registry.specs.Calls.{HaveOwnPlaces, IsJustMade, IsLivePack, IsMade, IsReclaimed, IsEnded, Frees, full_refusal, make_refusal};

use crate::parts::{Part, is_named};
use std::alloc::Global;
use std::marker::Model;
use sv_model::{
    Descriptor, ListId, MAX_PLACES, MAX_SUPERS, MemId, Pack, PlacedRegister, Refusal, SuperVersion,
    SvSerial, VersionId,
};

/// Every SuperVersion ever made, by its serial, which is never used again. Contracts see the list of
/// their records.
#[derive(Drop)]
pub struct Registry {
    supers: PlacedRegister<SuperVersion, MAX_PLACES>,
}

impl Model for Registry {
    ghost use Rattle.std.specs.Prelude.{List};
    ghost use Rattle.sv_model.specs.declared.records.SuperVersion.{SuperVersion};

    ghost Value = { List SuperVersion };

    ghost view = { λ r. r.supers };
}

/// What a reclaimed SuperVersion alone named.
#[derive(Clone, Copy, Debug, PartialEq, Eq)]
pub struct Freed {
    pub active: Option<MemId>,
    pub list: Option<ListId>,
    pub version: Option<VersionId>,
}

impl Registry {
    /// No SuperVersion. Takes no memory.
    pub fn new(alloc: Global) -> Registry
        ensures { result ≡ [] }
    {
        Registry {
            supers: PlacedRegister::new(alloc),
        }
    }

    /// The record of the SuperVersion with this serial; none exactly where it was never made.
    pub fn record(&self, serial: SvSerial) -> Option<&SuperVersion>
        ensures { option_copied result ≡ entry self.now serial }
    {
        self.supers.record(serial.0)
    }

    /// What the SuperVersion with this serial names; none exactly where it was never made.
    pub fn descriptor(&self, serial: SvSerial) -> Option<&Descriptor>
        ensures { option_copied result ≡ option_map (λ s. s.descriptor) (entry self.now serial) }
    {
        self.record(serial).map(|record| &record.descriptor)
    }

    /// Whether the pack is that of a Live SuperVersion.
    pub fn is_live(&self, pack: Pack) -> bool
        ensures { IsTrue result ↔ IsLivePack self.now pack }
    {
        self.stands(pack.serial, pack.place)
    }

    /// Whether a Live SuperVersion has this active memtable.
    pub fn has_active(&self, mem: MemId) -> bool
        ensures { IsTrue result ↔ Has (UsesMemtable mem) self.now }
    {
        self.names(&Part::Active(mem))
    }

    /// How many SuperVersions were ever made. Takes no memory.
    pub fn made(&self) -> u64
        ensures { result ≡ length self.now }
    {
        self.supers.made()
    }

    /// How many SuperVersions are Gone. Looks at the places alone. Takes no memory.
    pub fn gone(&self) -> u64
        ensures { result ≡ count_by (λ s. not s.live) self.now }
    {
        self.supers.gone()
    }

    /// Makes a SuperVersion of this descriptor, Live, under the next serial and at the least free
    /// place. Refused as `RegisterFull` where 1,048,576 were made, then as `TooManyLive` where 256 are
    /// Live; a refusal leaves the registry as it was.
    pub fn make(&mut self, descriptor: Descriptor) -> Result<Pack, Refusal>
        ensures made { IfOk result (λ pack. IsMade self.old descriptor pack self.new) }
        ensures refused { Refuses (make_refusal self.old) result }
        ensures kept { OnErr result (self.new ≡ self.old) }
        ensures places { HaveOwnPlaces self.new }
    {
        if self.supers.made() >= MAX_SUPERS {
            return Err(Refusal::RegisterFull);
        }
        let Some(place) = self.supers.room() else {
            return Err(Refusal::TooManyLive);
        };
        let place = place as u8;
        let record = SuperVersion {
            descriptor,
            place,
            live: true,
        };
        let serial = SvSerial(self.supers.add(record)?);
        Ok(Pack { serial, place })
    }

    /// Ends the Live SuperVersion of this pack: it is Gone and its place free. Gives what it named and no
    /// other Live one names. Takes no memory.
    pub fn reclaim(&mut self, pack: Pack) -> Freed
        requires { IsLivePack self.old pack }
        ensures reclaimed { IsReclaimed self.old pack result self.new }
        ensures places { HaveOwnPlaces self.new }
    {
        let descriptor = self.end(pack.serial);
        Freed {
            active: self.freed_active(descriptor.active),
            list: self.freed_list(descriptor.list),
            version: self.freed_version(descriptor.version),
        }
    }

    /// Undoes the make just done: the SuperVersion made last, which is still Live, was never made, and its
    /// place is free. Takes no memory.
    pub fn take_back(&mut self)
        requires { IsJustMade self.old }
        ensures undone { (s : SuperVersion) × (self.old ≡ self.new ++ s ∷ []) }
        ensures places { HaveOwnPlaces self.new }
    {
        self.supers.take_back();
    }

    fn stands(&self, serial: SvSerial, place: u8) -> bool
        ensures { IsTrue result ↔ IsLivePack self.now (serial * 256 + place) }
    {
        let here = self.supers.id_at(place as usize);
        here != 0 && here == serial.0
    }

    fn end(&mut self, serial: SvSerial) -> Descriptor
        requires { IsLiveSuper self.old serial }
        ensures ended { (s : SuperVersion) × IsEnded self.old serial s self.new × (result ≡ s.descriptor) }
        ensures places { HaveOwnPlaces self.new }
    {
        self.supers.end(serial.0).descriptor
    }

    fn names(&self, part: &Part) -> bool
        ensures { IsTrue result ↔ Has (NamesPart part.now) self.now }
    {
        is_named(&self.supers, part)
    }

    fn freed_active(&self, mem: MemId) -> Option<MemId>
        ensures { Frees (Has (UsesMemtable mem) self.now) mem result }
    {
        if self.names(&Part::Active(mem)) {
            return None;
        }
        Some(mem)
    }

    fn freed_list(&self, list: ListId) -> Option<ListId>
        ensures { Frees (Has (UsesList list) self.now) list result }
    {
        if self.names(&Part::List(list)) {
            return None;
        }
        Some(list)
    }

    fn freed_version(&self, version: VersionId) -> Option<VersionId>
        ensures { Frees (Has (UsesVersion version) self.now) version result }
    {
        if self.names(&Part::Version(version)) {
            return None;
        }
        Some(version)
    }

    /// Whether 256 are Live, so that no place is free. Looks at the places alone.
    pub fn is_full(&self) -> bool
        ensures { full_refusal self.now ≡ cond result (Some TooManyLive) None }
    {
        self.supers.room().is_none()
    }

    /// Whether 1,048,576 were made, so that no serial is left.
    pub fn all_made(&self) -> bool
        ensures { make_refusal self.now ≡ cond result (Some RegisterFull) (full_refusal self.now) }
    {
        self.supers.made() >= MAX_SUPERS
    }
}
