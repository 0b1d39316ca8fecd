// Making a SuperVersion with what is new in it and with its reference: all is made, or nothing.
ghost use Rattle.std.specs.Prelude.{◌≡◌, ◌<◌, ◌≤◌, ◌∷◌, [], ℕ, IfOk, OnErr, Some, length};
ghost use Rattle.sv_model.specs.declared.records.MemtableList.{MemtableList};
ghost use Rattle.sv_model.specs.declared.records.Version.{Version};
ghost use Rattle.sv_model.specs.Named.{IsLiveList, IsLiveVersion, HasFile};
ghost use Rattle.sv_model.specs.Ranges.{FilesJoin};
ghost use Rattle.sv_model.specs.Refusals.{Refuses, first_due};
ghost use Rattle.sv_model.specs.Registers.{entry, Has, IsAdded};
ghost use Rattle.sv_cells.specs.Calls.{memtables_refusal};
ghost use Rattle.sv_registry.specs.Calls.{make_refusal};
ghost use Rattle.sv_objects.specs.Makings.{CompactionMade, FamilyMade, FlushMade, IsBody, IsCellOf, RefMade, SwitchMade};

use crate::bodies::{Body, Held};
use crate::objects::Objects;
use std::alloc::Global;
use std::sync::Arc;
use sv_cells::{MAX_MEMTABLES, MemtableRegister};
use sv_imm::MAX_LISTS;
use sv_model::{
    Descriptor, FamilyId, FileMeta, Items, ListId, MemId, Options, Refusal, SvRef, VersionId,
};
use sv_registry::Registry;
use sv_version::MAX_VERSIONS;

// A SuperVersion with its reference.
pub(crate) fn make_ref(
    supers: &mut Registry,
    alloc: Global,
    descriptor: Descriptor,
    cell: u8,
    held: Held,
) -> Result<SvRef<Body>, Refusal>
    ensures made { IfOk result (λ r. RefMade supers.old descriptor cell held supers.new r.pack r.body.value) }
    ensures refused { Refuses (make_refusal supers.old) result }
    ensures kept { OnErr result (supers.new ≡ supers.old) }
{
    let body = body_of(&descriptor, cell, held);
    let pack = supers.make(descriptor)?;
    match Arc::new(alloc, body) {
        Ok(body) => Ok(SvRef { pack, body }),
        Err(_) => {
            supers.take_back();
            Err(Refusal::OutOfMemory)
        }
    }
}

fn body_of(descriptor: &Descriptor, cell: u8, held: Held) -> Body
    ensures { IsBody descriptor.now cell held result }
{
    Body {
        descriptor: *descriptor,
        cell,
        frozen: Items::from_vec(held.frozen),
        files: Items::from_vec(held.files),
    }
}

// The cell of a memtable that was made.
pub(crate) fn cell_of(memtables: &MemtableRegister, mem: MemId) -> u8
    requires { (0 < mem) × (mem ≤ length memtables.now) }
    ensures { IsCellOf memtables.now mem result }
{
    let Some(record) = memtables.record(mem) else {
        unreachable!();
    };
    record.cell
}

impl Objects {
    /// A SuperVersion like the family's current one, with other options.
    pub fn make_renewed(
        &mut self,
        alloc: Global,
        descriptor: Descriptor,
        cell: u8,
        held: Held,
    ) -> Result<SvRef<Body>, Refusal>
        ensures made { IfOk result (λ r. RefMade self.old.supers descriptor cell held self.new.supers r.pack r.body.value) }
        ensures refused { Refuses (make_refusal self.old.supers) result }
        ensures kept { OnErr result (self.new ≡ self.old) }
        ensures rest { self.new ≡ record self.old { supers = self.new.supers } }
    {
        make_ref(&mut self.supers, alloc, descriptor, cell, held)
    }

    /// A SuperVersion over a new memtable, which begins after `base` writes, with the active one of the current at the
    /// end of its list.
    pub fn make_switched(
        &mut self,
        alloc: Global,
        current: Descriptor,
        base: u64,
        held: Held,
    ) -> Result<SvRef<Body>, Refusal>
        requires live { IsLiveList self.old.lists current.list }
        requires short { (l : MemtableList) → entry self.old.lists current.list ≡ Some l → length l.members < 64 }
        requires few_lists { length self.old.lists < MAX_LISTS }
        requires few_memtables { length self.old.memtables < MAX_MEMTABLES }
        ensures made { IfOk result (λ r. SwitchMade self.old current base held self.new r.pack r.body.value) }
        ensures refused { Refuses (first_due (memtables_refusal self.old.memtables ∷ make_refusal self.old.supers ∷ [])) result }
        ensures kept { OnErr result (self.new ≡ self.old) }
    {
        let active = self.memtables.make(current.family, base)?;
        let cell = cell_of(&self.memtables, active);
        let Ok(list) = self.lists.push(current.list, current.active) else {
            self.memtables.take_back();
            return Err(Refusal::OutOfMemory);
        };
        let descriptor = Descriptor {
            active,
            list,
            base,
            ..current
        };
        match make_ref(&mut self.supers, alloc, descriptor, cell, held) {
            Ok(made) => Ok(made),
            Err(refusal) => {
                self.lists.take_back();
                self.memtables.take_back();
                Err(refusal)
            }
        }
    }

    /// A SuperVersion with a new Version, which has the file last, and a list without the oldest memtables of the
    /// current's, as many as `count`.
    pub fn make_flushed(
        &mut self,
        alloc: Global,
        current: Descriptor,
        cell: u8,
        file: FileMeta,
        count: u8,
        held: Held,
    ) -> Result<SvRef<Body>, Refusal>
        requires live_version { IsLiveVersion self.old.versions current.version }
        requires joins { (v : Version) → entry self.old.versions current.version ≡ Some v → FilesJoin 0 v.files file.from }
        requires unnamed { Has (HasFile file.number) self.old.versions → ⊥ }
        requires few_versions { length self.old.versions < MAX_VERSIONS }
        requires live { IsLiveList self.old.lists current.list }
        requires few_lists { length self.old.lists < MAX_LISTS }
        ensures made { IfOk result (λ r. FlushMade self.old current cell file count held self.new r.pack r.body.value) }
        ensures refused { Refuses (make_refusal self.old.supers) result }
        ensures kept { OnErr result (self.new ≡ self.old) }
    {
        let Ok(version) = self.versions.add_file(current.version, file) else {
            return Err(Refusal::OutOfMemory);
        };
        let Ok(list) = self.lists.pop_flushed(current.list, count) else {
            self.versions.take_back();
            return Err(Refusal::OutOfMemory);
        };
        let descriptor = Descriptor {
            list,
            version,
            ..current
        };
        match make_ref(&mut self.supers, alloc, descriptor, cell, held) {
            Ok(made) => Ok(made),
            Err(refusal) => {
                self.lists.take_back();
                self.versions.take_back();
                Err(refusal)
            }
        }
    }

    /// A SuperVersion with a new Version, which has the file alone.
    pub fn make_compacted(
        &mut self,
        alloc: Global,
        current: Descriptor,
        cell: u8,
        file: FileMeta,
        held: Held,
    ) -> Result<SvRef<Body>, Refusal>
        requires live_version { IsLiveVersion self.old.versions current.version }
        requires begins { file.from ≡ 0 }
        requires covers { (v : Version) → entry self.old.versions current.version ≡ Some v → FilesJoin 0 v.files file.to }
        requires unnamed { Has (HasFile file.number) self.old.versions → ⊥ }
        requires few_versions { length self.old.versions < MAX_VERSIONS }
        ensures made { IfOk result (λ r. CompactionMade self.old current cell file held self.new r.pack r.body.value) }
        ensures refused { Refuses (make_refusal self.old.supers) result }
        ensures kept { OnErr result (self.new ≡ self.old) }
    {
        let Ok(version) = self.versions.replace_all(current.version, file) else {
            return Err(Refusal::OutOfMemory);
        };
        let descriptor = Descriptor { version, ..current };
        match make_ref(&mut self.supers, alloc, descriptor, cell, held) {
            Ok(made) => Ok(made),
            Err(refusal) => {
                self.versions.take_back();
                Err(refusal)
            }
        }
    }

    /// The first SuperVersion of a family, with its first memtable, list and Version.
    pub fn make_family(
        &mut self,
        alloc: Global,
        family: FamilyId,
        options: Options,
    ) -> Result<SvRef<Body>, Refusal>
        requires few_memtables { length self.old.memtables < MAX_MEMTABLES }
        requires few_lists { length self.old.lists < MAX_LISTS }
        requires few_versions { length self.old.versions < MAX_VERSIONS }
        ensures made { IfOk result (λ r. FamilyMade self.old family options self.new r.pack r.body.value) }
        ensures refused { Refuses (first_due (memtables_refusal self.old.memtables ∷ make_refusal self.old.supers ∷ [])) result }
        ensures kept { OnErr result (self.new ≡ self.old) }
    {
        let active = self.memtables.make(family, 0)?;
        let cell = cell_of(&self.memtables, active);
        let Ok(list) = self.lists.first() else {
            self.memtables.take_back();
            return Err(Refusal::OutOfMemory);
        };
        let Ok(version) = self.versions.first() else {
            self.lists.take_back();
            self.memtables.take_back();
            return Err(Refusal::OutOfMemory);
        };
        let descriptor = first_descriptor(family, active, list, version, options);
        match make_ref(&mut self.supers, alloc, descriptor, cell, Held::none(alloc)) {
            Ok(made) => Ok(made),
            Err(refusal) => {
                self.versions.take_back();
                self.lists.take_back();
                self.memtables.take_back();
                Err(refusal)
            }
        }
    }
}

fn first_descriptor(
    family: FamilyId,
    active: MemId,
    list: ListId,
    version: VersionId,
    options: Options,
) -> Descriptor
    ensures { result ≡ record { family = family; active = active; list = list; version = version; base = 0; options = options } }
{
    Descriptor {
        family,
        active,
        list,
        version,
        base: 0,
        options,
    }
}
