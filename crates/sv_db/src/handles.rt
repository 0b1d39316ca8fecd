// What a lane means by the name of a family.
ghost use Rattle.std.specs.Prelude.{IfSome, None, length, position, ◌<◌, ◌≡◌, ◌⊎◌};
ghost use Rattle.sv_db.specs.Handles.{ClosesOwn, HasNone, IsHandleOf, is_named};

use sv_model::{FamilyId, Name};

fn is_named(own: &Option<Name>, name: &Name) -> bool
    ensures { result ≡ is_named name.now own.now }
{
    match own {
        Some(own) => own.as_bytes() == name.as_bytes(),
        None => false,
    }
}

fn place_of(handles: &[Option<Name>], name: &Name) -> Option<usize>
    ensures { result ≡ position (is_named name.now) handles.now }
{
    handles.iter().position(|own| is_named(own, name))
}

/// The family that the lane means by the name: of which it has a handle by this name.
pub(crate) fn family_of(handles: &[Option<Name>], name: &Name) -> Option<FamilyId>
    requires { length handles.now ≡ 16 }
    ensures own { IfSome result (λ f. (f < 16) × IsHandleOf name.now handles.now f) }
    ensures none { result ≡ None → HasNone name.now handles.now }
{
    match place_of(handles, name) {
        Some(place) => Some(FamilyId(place as u8)),
        None => None,
    }
}

/// The lane has no handle by the name any more.
pub(crate) fn close_handle(handles: &mut [Option<Name>], name: &Name)
    requires { length handles.old ≡ 16 }
    ensures closed { ClosesOwn name.now handles.old handles.new ⊎ (HasNone name.now handles.old × (handles.new ≡ handles.old)) }
{
    if let Some(family) = family_of(handles, name) {
        handles[family.0 as usize] = None;
    }
}
