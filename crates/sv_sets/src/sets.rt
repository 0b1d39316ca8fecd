// An option of a family is set by a lane of many.
ghost use Rattle.std.specs.Prelude.{[], length, ◌+◌, ◌<◌, ◌≡◌, ◌≤◌};
ghost use Rattle.sv_borrows.specs.Desks.{IsAtDesk};
ghost use Rattle.sv_borrows.specs.Lending.{IsFree};
ghost use Rattle.sv_model.specs.declared.sv_refs.SvRef.{SvRef};
ghost use Rattle.sv_objects.specs.declared.bodies.Body.{Body};
ghost use Rattle.sv_sets.specs.Locked.{SetsLocked};
ghost use Rattle.sv_sets.specs.Setting.{Sets};
ghost use Rattle.sv_slots.specs.Known.{CameWith, IsSameSeat, table_of, view_of};
ghost use Rattle.sv_slots.specs.declared.table.TheConstants.{MAX_HAND};
ghost use Rattle.sv_state.specs.Currents.{OwnHaveCurrents};

use std::marker::Brand;
use std::sync::Wait;
use sv_borrows::{Held, Seat, Table};
use sv_dir::Dir;
use sv_installs::install;
use sv_model::{Name, OptionName, Refusal, SvRef, SvSerial};
use sv_objects::Body;

// The reference of the SuperVersion before.
fn before(old: Option<SvRef<Body>>) -> SvRef<Body>
    requires { (r : SvRef Body) × (old ≡ Some r) }
    ensures { old ≡ Some result }
{
    match old {
        Some(old) => old,
        None => unreachable!(),
    }
}

// With the DB lock: the state makes the SuperVersion, and the table shows it.
fn set_locked<D: Dir + Drop, R: Wait>(
    rt: &R,
    core: &Table<D>,
    seat: &mut Seat<D>,
    held: &mut Held,
    lanes: u8,
    lane: u8,
    name: &Name,
    option: OptionName,
    value: u64,
) -> Result<SvSerial, Refusal>
    requires table { CameWith (table_of core.now) seat.old }
    requires lanes { (lanes ≤ 32) × (0 < lanes) × (lanes ≡ (view_of seat.old).seat.lanes) }
    requires lane { lane < 32 }
    requires desk { IsAtDesk held.old.books [] (view_of seat.old) × ((view_of seat.old).owes ≡ []) }
    requires room { length (view_of seat.old).hand + 1 < MAX_HAND }
    requires current { OwnHaveCurrents held.old.books lane name.now }
    ensures same { IsSameSeat seat.old seat.new }
    ensures sets { SetsLocked lane name.now option value result held.old.books held.new.books (view_of seat.old) (view_of seat.new) }
{
    let made = match held.state.set_option(lane, name, option, value) {
        Ok(made) => made,
        Err(refusal) => return Err(refusal),
    };
    let serial = made.new.serial;
    let family = made.family;
    let old = before(made.old);
    install(rt, core, seat, held, lanes, family, old);
    Ok(serial)
}

/// Sets an option of the family of the lane's handle of the name, and gives the serial of the family's new SuperVersion,
/// which has it; there is a new one also where the value is the same. Nobody borrows the one before from a slot any more.
/// `lanes` is how many lanes the table has, `lane` the number of this one.
///
/// Refused as `BadOption` where the value is outside the option's range, then as `NotOpen` or `NoFamily` without a handle,
/// then as `Dropped`, `RegisterFull` and `TooManyLive`, of the books that the lane finds; a refusal leaves them.
pub fn set_option<D: Dir + Drop, R: Wait>(
    rt: &R,
    core: &Table<D>,
    seat: &mut Seat<D>,
    lanes: u8,
    lane: u8,
    name: &Name,
    option: OptionName,
    value: u64,
) -> Result<SvSerial, Refusal>
    requires table { CameWith (table_of core.now) seat.old }
    requires free { IsFree (view_of seat.old) × ((view_of seat.old).owes ≡ []) }
    requires lanes { (lanes ≤ 32) × (0 < lanes) × (lanes ≡ (view_of seat.old).seat.lanes) }
    requires lane { (lane < 32) × (lane ≡ (view_of seat.old).known.lane) }
    ensures same { IsSameSeat seat.old seat.new }
    ensures sets { Sets lane name.now option value result (view_of seat.old) (view_of seat.new) }
{
    let mut held = core.take_state(rt, seat);
    let answer = set_locked(rt, core, seat, &mut held, lanes, lane, name, option, value);
    core.give_state::<Brand>(seat, held);
    answer
}
