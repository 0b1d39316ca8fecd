// A SuperVersion becomes a family's current, or a family has none any more.
ghost use Rattle.std.specs.Prelude.{◌≡◌, ◌<◌, ◌+◌, ◌*◌, ℕ, Some, None, length, slice_get, slice_set};
ghost use Rattle.sv_model.specs.declared.records.Top.{Top};
ghost use Rattle.sv_model.specs.declared.sv_refs.SvRef.{SvRef};
ghost use Rattle.sv_objects.specs.declared.bodies.Body.{Body};

use std::mem;
use sv_model::{FamilyId, MemId, Pack, SvRef, SvSerial, Top};
use sv_objects::Body;

/// What the caller is to carry out before it gives the state back: from now on another SuperVersion is the family's
/// current, or none.
#[derive(Drop)]
pub struct Install {
    pub family: FamilyId,
    /// The new current; not used where there is none.
    pub new: Pack,
    /// The reference of the current before.
    pub old: Option<SvRef<Body>>,
    /// The cell for a new memtable.
    pub vacant: Option<(u8, MemId)>,
}

impl Install {
    // The family has no current any more.
    pub(crate) fn ended(family: FamilyId, old: Option<SvRef<Body>>) -> Install
        ensures family { result.family ≡ family }
        ensures old { result.old ≡ old }
        ensures vacant { result.vacant ≡ None }
    {
        Install {
            family,
            new: Pack {
                serial: SvSerial(0),
                place: 0,
            },
            old,
            vacant: None,
        }
    }
}

// What a family has on top once this is its current SuperVersion.
pub(crate) fn top_of(made: &SvRef<Body>) -> Top
    ensures { (serial place : ℕ) → place < 256 → made.now.pack ≡ serial * 256 + place → result ≡ record { current = Some serial; last = made.now.body.value.descriptor.version } }
{
    Top {
        current: Some(made.pack.serial),
        last: made.body.descriptor.version,
    }
}

// Puts the reference of a new SuperVersion in the place of that of the family's current one, which is given.
pub(crate) fn put_current(
    tops: &mut Vec<Top>,
    held: &mut Vec<Option<SvRef<Body>>>,
    family: FamilyId,
    made: SvRef<Body>,
) -> Option<SvRef<Body>>
    requires within { family < length tops.old.items }
    requires paired { length held.old.items ≡ length tops.old.items }
    ensures tops { (serial place : ℕ) → place < 256 → made.pack ≡ serial * 256 + place → tops.new.items ≡ slice_set tops.old.items family (record { current = Some serial; last = made.body.value.descriptor.version }) }
    ensures held { held.new.items ≡ slice_set held.old.items family (Some made) }
    ensures old { slice_get held.old.items family ≡ Some result }
{
    let index = family.0 as usize;
    tops[index] = top_of(&made);
    let slot = &mut held[index];
    mem::replace(slot, Some(made))
}

// Takes the reference of the family's current SuperVersion, so that it has none.
pub(crate) fn take_current(
    tops: &mut Vec<Top>,
    held: &mut Vec<Option<SvRef<Body>>>,
    family: FamilyId,
) -> Option<SvRef<Body>>
    requires within { family < length tops.old.items }
    requires paired { length held.old.items ≡ length tops.old.items }
    ensures tops { (t : Top) → slice_get tops.old.items family ≡ Some t → tops.new.items ≡ slice_set tops.old.items family (record t { current = None }) }
    ensures held { held.new.items ≡ slice_set held.old.items family None }
    ensures old { slice_get held.old.items family ≡ Some result }
{
    let index = family.0 as usize;
    let top = &mut tops[index];
    top.current = None;
    let slot = &mut held[index];
    mem::replace(slot, None)
}

// What the references of the family's current SuperVersion share.
pub(crate) fn body_at(held: &Vec<Option<SvRef<Body>>>, family: FamilyId) -> &Body
    requires { (r : SvRef Body) × (slice_get held.now.items family ≡ Some (Some r)) }
    ensures { (r : SvRef Body) → slice_get held.now.items family ≡ Some (Some r) → result.now ≡ r.body.value }
{
    let Some(current) = &held[family.0 as usize] else {
        unreachable!();
    };
    &current.body
}
