// What the state tells.
ghost use Rattle.std.specs.Prelude.{◌≡◌, ◌<◌, ◌↔◌, ℕ, Some, IsTrue, IfOk, length, slice_get};
ghost use Rattle.std.specs.Option.{option_map};
ghost use Rattle.sv_model.specs.declared.records.Top.{Top};
ghost use Rattle.sv_model.specs.Lists.{total};
ghost use Rattle.sv_model.specs.Refusals.{RefusesExactly};
ghost use Rattle.sv_model.specs.Steady.{Sound};
ghost use Rattle.sv_family.specs.Refused.{find_refusal};
ghost use Rattle.sv_model.specs.Books.{files_of};
ghost use Rattle.sv_state.specs.Capturing.{IsUnderWay};
ghost use Rattle.sv_state.specs.Currents.{HasCurrentAt, StandsAt, kept_of};
ghost use Rattle.sv_state.specs.Refs.{IsRefOf};

use crate::finishing::captor;
use crate::state::State;
use sv_model::{FamilyId, FileMeta, FileNumber, Name, Options, SvRef, Top, VersionId};
use sv_objects::Body;

impl State {
    /// Whether the family was made and has a current SuperVersion. Takes no memory.
    pub fn has_current(&self, family: FamilyId) -> bool
        ensures { IsTrue result ↔ HasCurrentAt self.now.books family }
    {
        let index = family.0 as usize;
        if index >= self.tops.len() {
            return false;
        }
        self.tops[index].current.is_some()
    }

    /// The reference of the family's current SuperVersion. Takes no memory.
    pub fn current(&self, family: FamilyId) -> &SvRef<Body>
        requires { HasCurrentAt self.now.books family }
        ensures { (at : HasCurrentAt self.now.books family) → IsRefOf self.now.books at.serial result.now.pack result.now.body.value }
    {
        let Some(held) = &self.held[family.0 as usize] else {
            unreachable!();
        };
        held
    }

    /// The name and the options of the family; none exactly where it was never made or is dropped. Takes no memory.
    pub fn kept(&self, family: FamilyId) -> Option<(&Name, Options)>
        ensures { option_map (λ k. (k.0.now, k.1)) result ≡ kept_of (slice_get self.now.books.families family) }
    {
        if family.0 as usize >= self.families.len() {
            return None;
        }
        if self.families.is_dropped(family) {
            return None;
        }
        Some((self.families.name(family), self.families.options(family)))
    }

    /// The files of the last Version of a family that is not dropped, the oldest first. Takes no memory.
    pub fn last_files(&self, family: FamilyId) -> &[FileMeta]
        requires { StandsAt self.now.books family }
        ensures { (at : StandsAt self.now.books family) → result.now ≡ files_of self.now.books.versions at.top.last }
    {
        let last = last_of(self.tops.as_slice(), family);
        self.objects.versions.files(last)
    }

    /// The family whose flush or compaction under way has captured the number. Takes no memory.
    pub fn captor(&self, number: FileNumber) -> FamilyId
        requires { IsUnderWay self.now.books number }
        ensures { (family : ℕ) → slice_get self.now.books.files.captured family ≡ Some (Some number) → result ≡ family }
    {
        captor(&self.objects.files, number)
    }

    /// The next file number. Takes no memory.
    pub fn next(&self) -> FileNumber
        ensures { result ≡ self.now.books.files.next }
    {
        self.objects.files.next()
    }

    /// The books are sound. Does nothing: it is for a caller that holds the state and nothing else of it.
    pub fn laws(&self)
        ensures sound { Sound self.now.books }
    {
        let _ = &self.alloc;
    }
}

fn last_of(tops: &[Top], family: FamilyId) -> VersionId
    requires { family < length tops.now }
    ensures { (t : Top) → slice_get tops.now family ≡ Some t → result ≡ t.last }
{
    tops[family.0 as usize].last
}
