// The family that is sought.
ghost use Rattle.std.specs.Prelude.{◌≡◌, ◌<◌, position};
ghost use Rattle.std.specs.List.{list_any};
ghost use Rattle.std.specs.Str.{bytes_eq};
ghost use Rattle.sv_model.specs.Families.{default_name, is_retired};
ghost use Rattle.sv_family.specs.Refused.{is_own, is_standing};

use sv_model::{Family, MAX_LANES, Name};

pub(crate) fn is_default(name: &Name) -> bool
    ensures { result ≡ bytes_eq name.now default_name }
{
    name.as_bytes() == b"default".as_slice()
}

fn has_name(family: &Family, name: &Name) -> bool
    ensures { result ≡ bytes_eq family.now.name name.now }
{
    family.name.as_bytes() == name.as_bytes()
}

// Whether the family has the name and is not dropped.
fn is_standing(family: &Family, name: &Name) -> bool
    ensures { result ≡ is_standing name.now family.now }
{
    has_name(family, name) && !family.dropped
}

// Whether the family has the name and the lane a handle of it.
fn is_own(family: &Family, lane: u8, name: &Name) -> bool
    requires { lane < MAX_LANES }
    ensures { result ≡ is_own lane name.now family.now }
{
    has_name(family, name) && family.handles[lane as usize]
}

fn has_any_handle(family: &Family) -> bool
    ensures { result ≡ list_any (λ held. held) family.now.handles }
{
    family.handles.iter().any(|held| *held)
}

// Whether the family is dropped and no lane has a handle of it.
pub(crate) fn is_retired(family: &Family) -> bool
    ensures { result ≡ is_retired family.now }
{
    family.dropped && !has_any_handle(family)
}

// The place of the family that has the name and is not dropped.
pub(crate) fn place_of_standing(families: &[Family], name: &Name) -> Option<usize>
    ensures { result ≡ position (is_standing name.now) families.now }
{
    families.iter().position(|family| is_standing(family, name))
}

// The place of the family that has the name and of which the lane has a handle.
pub(crate) fn place_of_own(families: &[Family], lane: u8, name: &Name) -> Option<usize>
    requires { lane < MAX_LANES }
    ensures { result ≡ position (is_own lane name.now) families.now }
{
    families
        .iter()
        .position(|family| is_own(family, lane, name))
}
