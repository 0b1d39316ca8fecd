// A flush and a compaction end: their file is the family's from then on, or it is given up.
ghost use Rattle.std.specs.Prelude.{◌≡◌, ◌<◌, ◌≤◌, ◌∷◌, [], ℕ, true, false, IfOk, IsTrue, OnErr, None, Some, length, slice_get, ◌↔◌};
ghost use Rattle.sv_model.specs.declared.records.Memtable.{Memtable};
ghost use Rattle.sv_model.specs.declared.records.MemtableList.{MemtableList};
ghost use Rattle.sv_model.specs.declared.records.Version.{Version};
ghost use Rattle.sv_model.specs.Named.{HasFile, IsLiveList, IsLiveVersion};
ghost use Rattle.sv_model.specs.Numbers.{IsCaptured};
ghost use Rattle.sv_model.specs.Ranges.{FilesJoin};
ghost use Rattle.sv_model.specs.Refusals.{Refuses, first_due};
ghost use Rattle.sv_model.specs.Registers.{Has, entry};
ghost use Rattle.sv_registry.specs.Calls.{make_refusal};
ghost use Rattle.sv_laws.specs.Captures.{IsGivenUp};
ghost use Rattle.sv_laws.specs.NewCurrents.{IsCompacted, IsFlushed};
ghost use Rattle.sv_state.specs.Finishing.{BodyCompacted, BodyFlushed, CanFinish, HasFront, finish_refusal};
ghost use Rattle.sv_state.specs.Follows.{Follows};
ghost use Rattle.sv_state.specs.Writing.{Tells};

use crate::capturing::file_over;
use crate::installs::{Install, body_at, put_current};
use crate::state::State;
use std::alloc::Global;
use sv_cells::MemtableRegister;
use sv_files::{FileBook, Settled};
use sv_imm::MAX_LISTS;
use sv_model::{FamilyId, FileMeta, FileNumber, MemId, Refusal, SvRef};
use sv_objects::{Body, Held, Objects};
use sv_version::MAX_VERSIONS;

impl State {
    /// Ends a flush: the file is the last of a new Version, and a new list is without just the memtables that
    /// it covers. Refused as `Dropped`, `RegisterFull` and `TooManyLive`; then the file is given up, so that its number
    /// is Obsolete.
    pub fn flush_done(&mut self, file: FileMeta) -> Result<Install, Refusal>
        requires finish { (family : ℕ) × CanFinish self.old.books family file }
        requires kind { file.bottom.last ≡ false }
        ensures flushed { IfOk result (λ install. IsFlushed self.old.books self.new.books install.family file) }
        ensures tells { IfOk result (λ install. Tells self.old.books self.new.books install.family install) }
        ensures vacant { IfOk result (λ install. install.vacant ≡ None) }
        ensures given_up { OnErr result ((family : ℕ) × IsGivenUp self.old.books self.new.books family file.number) }
        ensures refused { (family : ℕ) → CanFinish self.old.books family file → Refuses (first_due (finish_refusal (slice_get self.old.books.families family) ∷ make_refusal self.old.books.supers ∷ [])) result }
        ensures spare { self.new.spare ≡ self.old.spare }
        ensures follows { Follows self.old.books self.new.books }
    {
        let number = file.number;
        let family = captor(&self.objects.files, number);
        if self.families.is_dropped(family) {
            self.objects.files.settle(number, Settled::Obsolete);
            return Err(Refusal::Dropped);
        }
        let alloc = self.alloc;
        let body = body_at(&self.held, family);
        let made = match flushed(&mut self.objects, alloc, body, file) {
            Ok(made) => made,
            Err(refusal) => {
                self.objects.files.settle(number, Settled::Obsolete);
                return Err(refusal);
            }
        };
        self.objects.files.settle(number, Settled::Live);
        let new = made.pack;
        let old = put_current(&mut self.tops, &mut self.held, family, made);
        Ok(Install {
            family,
            new,
            old,
            vacant: None,
        })
    }

    /// Ends a compaction: the file alone is a new Version. Refused as `Dropped`, `RegisterFull` and
    /// `TooManyLive`; then the file is given up, so that its number is Obsolete.
    pub fn compact_done(&mut self, file: FileMeta) -> Result<Install, Refusal>
        requires finish { (family : ℕ) × CanFinish self.old.books family file }
        requires kind { file.bottom.last ≡ true }
        ensures compacted { IfOk result (λ install. IsCompacted self.old.books self.new.books install.family file) }
        ensures tells { IfOk result (λ install. Tells self.old.books self.new.books install.family install) }
        ensures vacant { IfOk result (λ install. install.vacant ≡ None) }
        ensures given_up { OnErr result ((family : ℕ) × IsGivenUp self.old.books self.new.books family file.number) }
        ensures refused { (family : ℕ) → CanFinish self.old.books family file → Refuses (first_due (finish_refusal (slice_get self.old.books.families family) ∷ make_refusal self.old.books.supers ∷ [])) result }
        ensures spare { self.new.spare ≡ self.old.spare }
        ensures follows { Follows self.old.books self.new.books }
    {
        let number = file.number;
        let family = captor(&self.objects.files, number);
        if self.families.is_dropped(family) {
            self.objects.files.settle(number, Settled::Obsolete);
            return Err(Refusal::Dropped);
        }
        let alloc = self.alloc;
        let body = body_at(&self.held, family);
        let made = match compacted(&mut self.objects, alloc, body, file) {
            Ok(made) => made,
            Err(refusal) => {
                self.objects.files.settle(number, Settled::Obsolete);
                return Err(refusal);
            }
        };
        self.objects.files.settle(number, Settled::Live);
        let new = made.pack;
        let old = put_current(&mut self.tops, &mut self.held, family, made);
        Ok(Install {
            family,
            new,
            old,
            vacant: None,
        })
    }
}

// The family whose flush or compaction under way has captured the number.
pub(crate) fn captor(files: &FileBook, number: FileNumber) -> FamilyId
    requires { IsCaptured files.now.captured number }
    ensures { slice_get files.now.captured result ≡ Some (Some number) }
{
    files.laws();
    for index in 0..16 {
        if has_captured(files, FamilyId(index), number) {
            return FamilyId(index);
        }
    }
    unreachable!()
}

fn has_captured(files: &FileBook, family: FamilyId, number: FileNumber) -> bool
    requires { family < 16 }
    ensures { IsTrue result ↔ (slice_get files.now.captured family ≡ Some (Some number)) }
{
    match files.busy(family) {
        Some(captured) => captured == number,
        None => false,
    }
}

// A SuperVersion like that of the body, with the file last in its Version, and without the memtables that it covers.
fn flushed(
    objects: &mut Objects,
    alloc: Global,
    body: &Body,
    file: FileMeta,
) -> Result<SvRef<Body>, Refusal>
    requires live_version { IsLiveVersion objects.old.versions body.now.descriptor.version }
    requires joins { (v : Version) → entry objects.old.versions body.now.descriptor.version ≡ Some v → FilesJoin 0 v.files file.from }
    requires unnamed { Has (HasFile file.number) objects.old.versions → ⊥ }
    requires few_versions { length objects.old.versions < MAX_VERSIONS }
    requires live { IsLiveList objects.old.lists body.now.descriptor.list }
    requires few_lists { length objects.old.lists < MAX_LISTS }
    requires short { (l : MemtableList) → entry objects.old.lists body.now.descriptor.list ≡ Some l → length l.members ≤ 64 }
    requires paired { (l : MemtableList) → entry objects.old.lists body.now.descriptor.list ≡ Some l → length body.now.frozen ≡ length l.members }
    ensures made { IfOk result (λ r. BodyFlushed objects.old body.now file objects.new r.pack r.body.value) }
    ensures refused { Refuses (make_refusal objects.old.supers) result }
    ensures kept { OnErr result (objects.new ≡ objects.old) }
{
    let members = objects.lists.members(body.descriptor.list);
    let count = front_count(&objects.memtables, members, file.to);
    let (current, cell) = (body.descriptor, body.cell);
    let mut held = Held::of(alloc, body, count)?;
    held.push_file(same_file(&file))?;
    objects.make_flushed(alloc, current, cell, file, count as u8, held)
}

// How many of the members, from the front, begin before the write.
fn front_count(memtables: &MemtableRegister, members: &[MemId], to: u64) -> usize
    ensures front { HasFront memtables.now to members.now result }
    ensures within { result ≤ length members.now }
{
    for index in 0..members.len() {
        if !begins_before(memtables, members[index], to) {
            return index;
        }
    }
    members.len()
}

fn begins_before(memtables: &MemtableRegister, mem: MemId, to: u64) -> bool
    ensures { (it : Memtable) → entry memtables.now mem ≡ Some it → IsTrue result ↔ (it.first < to) }
{
    let Some(record) = memtables.record(mem) else {
        return false;
    };
    record.first < to
}

fn same_file(file: &FileMeta) -> FileMeta
    ensures { result ≡ file.now }
{
    file_over(
        file.number,
        file.from,
        file.to,
        file.bottom.last,
        &file.bottom.cuts,
    )
}

// A SuperVersion like that of the body, with a Version of the file alone.
fn compacted(
    objects: &mut Objects,
    alloc: Global,
    body: &Body,
    file: FileMeta,
) -> Result<SvRef<Body>, Refusal>
    requires live_version { IsLiveVersion objects.old.versions body.now.descriptor.version }
    requires begins { file.from ≡ 0 }
    requires covers { (v : Version) → entry objects.old.versions body.now.descriptor.version ≡ Some v → FilesJoin 0 v.files file.to }
    requires unnamed { Has (HasFile file.number) objects.old.versions → ⊥ }
    requires few_versions { length objects.old.versions < MAX_VERSIONS }
    ensures made { IfOk result (λ r. BodyCompacted objects.old body.now file objects.new r.pack r.body.value) }
    ensures refused { Refuses (make_refusal objects.old.supers) result }
    ensures kept { OnErr result (objects.new ≡ objects.old) }
{
    let (current, cell) = (body.descriptor, body.cell);
    let held = Held::alone(alloc, body, same_file(&file))?;
    objects.make_compacted(alloc, current, cell, file, held)
}
