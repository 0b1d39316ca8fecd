// The release of a handle by the name of a family.
ghost use Rattle.std.specs.Prelude.{[], length, ◌+◌, ◌<◌, ◌≡◌, ◌≤◌};
ghost use Rattle.sv_borrows.specs.Desks.{IsAtDesk};
ghost use Rattle.sv_borrows.specs.Lending.{IsFree};
ghost use Rattle.sv_model.specs.Lists.{same, total};
ghost use Rattle.sv_model.specs.declared.sv_refs.SvRef.{SvRef};
ghost use Rattle.sv_objects.specs.declared.bodies.Body.{Body};
ghost use Rattle.sv_releases.specs.Releasing.{Releases, ReleasesLocked};
ghost use Rattle.sv_slots.specs.Known.{CameWith, IsSameSeat, table_of, view_of};
ghost use Rattle.sv_slots.specs.declared.table.TheConstants.{MAX_HAND};
ghost use Rattle.sv_state.specs.Currents.{OwnHaveCurrents};

use crate::endings::end_current;
use std::marker::Brand;
use std::sync::Wait;
use sv_borrows::{Held, Seat, Table};
use sv_dir::Dir;
use sv_model::{Name, Refusal, SvRef};
use sv_objects::Body;

// The reference of the SuperVersion before.
fn before(old: Option<SvRef<Body>>) -> SvRef<Body>
    requires { (r : SvRef Body) × (old ≡ Some r) }
    ensures { old ≡ Some result }
{
    match old {
        Some(old) => old,
        None => unreachable!(),
    }
}

// The handle is closed in the state. Where the family is retired by that, it has no current any more.
fn release_locked<D: Dir + Drop, R: Wait>(
    rt: &R,
    core: &Table<D>,
    seat: &mut Seat<D>,
    held: &mut Held,
    lanes: u8,
    lane: u8,
    name: &Name,
) -> Result<(), Refusal>
    requires table { CameWith (table_of core.now) seat.old }
    requires lanes { (lanes ≤ 32) × (0 < lanes) × (lanes ≡ (view_of seat.old).seat.lanes) }
    requires lane { (lane < 32) × (lane ≡ (view_of seat.old).known.lane) }
    requires desk { IsAtDesk held.old.books [] (view_of seat.old) × ((view_of seat.old).owes ≡ []) }
    requires hand { (total (same 0) (view_of seat.old).hand ≡ 0) × (length (view_of seat.old).hand + 1 < MAX_HAND) }
    requires current { OwnHaveCurrents held.old.books lane name.now }
    ensures same { IsSameSeat seat.old seat.new }
    ensures releases { ReleasesLocked lane name.now result held.old.books held.new.books (view_of seat.old) (view_of seat.new) }
{
    let install = match held.state.release(lane, name) {
        Ok(install) => install,
        Err(refusal) => return Err(refusal),
    };
    let Some(install) = install else {
        return Ok(());
    };
    let old = before(install.old);
    end_current(rt, core, seat, held, lanes, install.family, old);
    Ok(())
}

/// Takes the lane's handle of the name back. A family that was dropped is retired by its last handle: it has no current
/// any more, the slots of all lanes are swept, and the SuperVersion that was goes where nobody else has a reference of
/// it. `lanes` is how many lanes the table has, `lane` the number of this one.
///
/// Refused as `IsDefault` where the name is `default`, then as `NotOpen` or `NoFamily` without a handle, of the books that
/// the lane finds. Takes no memory.
pub fn release<D: Dir + Drop, R: Wait>(
    rt: &R,
    core: &Table<D>,
    seat: &mut Seat<D>,
    lanes: u8,
    lane: u8,
    name: &Name,
) -> Result<(), Refusal>
    requires table { CameWith (table_of core.now) seat.old }
    requires free { IsFree (view_of seat.old) × ((view_of seat.old).owes ≡ []) }
    requires hand { total (same 0) (view_of seat.old).hand ≡ 0 }
    requires lanes { (lanes ≤ 32) × (0 < lanes) × (lanes ≡ (view_of seat.old).seat.lanes) }
    requires lane { (lane < 32) × (lane ≡ (view_of seat.old).known.lane) }
    ensures same { IsSameSeat seat.old seat.new }
    ensures releases { Releases lane name.now result (view_of seat.old) (view_of seat.new) }
{
    let mut held = core.take_state(rt, seat);
    let answer = release_locked(rt, core, seat, &mut held, lanes, lane, name);
    core.give_state::<Brand>(seat, held);
    answer
}
