// Pins: references of a SuperVersion that a lane keeps, and gets through them.
ghost use Rattle.std.specs.Prelude.{[], IfErr, IfOk, length, ◌+◌, ◌/◌, ◌<◌, ◌≡◌};
ghost use Rattle.sv_borrows.specs.Lending.{IsFree, MayLend};
ghost use Rattle.sv_borrows.specs.Parts.{body_of};
ghost use Rattle.sv_gets.specs.Getting.{GetsThrough, Pins, PinsNone};
ghost use Rattle.sv_gets.specs.Reading.{MayRead, Reads, StopsRead};
ghost use Rattle.sv_slots.specs.Known.{CameWith, IsSameSeat, table_of, view_of};
ghost use Rattle.sv_slots.specs.Seats.{bodied};

use crate::gets::{Got, serial_of};
use crate::reads::{Found, read};
use std::alloc::Global;
use std::sync::Wait;
use sv_borrows::{Seat, Table, give, lend};
use sv_dir::Dir;
use sv_model::{FamilyId, Key, OutOfMemory, Refusal, SvRef};
use sv_objects::Body;

/// A reference of the current SuperVersion of a family of which the lane has a handle. It is the lane's until it lets it
/// go. The DB lock is taken only where a get would take it.
pub fn pin_of<D: Dir + Drop, R: Wait>(
    rt: &R,
    core: &Table<D>,
    seat: &mut Seat<D>,
    family: FamilyId,
) -> Result<SvRef<Body>, OutOfMemory>
    requires table { CameWith (table_of core.now) seat.old }
    requires free { IsFree (view_of seat.old) × ((view_of seat.old).owes ≡ []) }
    requires lend { MayLend family (view_of seat.old) }
    requires room { length (view_of seat.old).hand + 1 < 65500 }
    ensures same { IsSameSeat seat.old seat.new }
    ensures pins { IfOk result (λ sv. Pins family (bodied body_of sv) (view_of seat.old) (view_of seat.new)) }
    ensures none { IfErr result (λ _. PinsNone family (view_of seat.old) (view_of seat.new)) }
{
    let lent = lend(rt, core, seat, family)?;
    let pinned = core.add_ref(seat, lent.sv());
    give(rt, core, seat, lent);
    pinned
}

/// The value of the key in a SuperVersion of which the lane has a reference, after all writes of its family that its
/// active memtable has by now. The DB lock is not taken. Refused as a get is.
pub fn get_through<D: Dir + Drop, R: Wait>(
    rt: &R,
    alloc: Global,
    core: &Table<D>,
    seat: &mut Seat<D>,
    sv: &SvRef<Body>,
    key: &Key,
) -> Result<Got, Refusal>
    requires table { CameWith (table_of core.now) seat.old }
    requires free { IsFree (view_of seat.old) }
    requires sv { MayRead sv.now.body.value.descriptor.family (bodied body_of sv.now) (view_of seat.old) }
    ensures same { IsSameSeat seat.old seat.new }
    ensures reads { Reads 1 (view_of seat.old) (view_of seat.new) }
    ensures got { IfOk result (λ got. GetsThrough (bodied body_of sv.now) key.now got (view_of seat.old) (view_of seat.new)) }
    ensures stops { IfErr result (StopsRead (view_of seat.old) (view_of seat.new)) }
{
    match read(rt, alloc, core, seat, sv, key) {
        Ok(Found { value, cut }) => Ok(Got {
            value,
            cut,
            sv: serial_of(sv),
        }),
        Err(refusal) => Err(refusal),
    }
}
