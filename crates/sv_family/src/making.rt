// The families that are made.
ghost use Rattle.std.specs.Prelude.{◌≡◌, ◌<◌, IfOk};
ghost use Rattle.sv_model.specs.Families.{default_family};
ghost use Rattle.sv_family.specs.Calls.{new_family};

use sv_model::{Family, MAX_LANES, Name, Options, OutOfMemory};

// The family of which each lane has a handle.
pub(crate) fn default_family() -> Family
    ensures { result ≡ default_family }
{
    let Some(name) = Name::new(b"default") else {
        unreachable!();
    };
    Family {
        name,
        options: Options::FIRST,
        dropped: false,
        handles: [true; 32],
    }
}

// The family that a lane makes, which alone has a handle.
pub(crate) fn new_family(lane: u8, name: &Name) -> Result<Family, OutOfMemory>
    requires { lane < MAX_LANES }
    ensures { IfOk result (λ family. family ≡ new_family lane name.now) }
{
    let name = name.clone()?;
    let mut handles = [false; 32];
    handles[lane as usize] = true;
    Ok(Family {
        name,
        options: Options::FIRST,
        dropped: false,
        handles,
    })
}
