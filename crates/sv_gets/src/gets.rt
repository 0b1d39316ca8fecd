// A get.
ghost use Rattle.std.specs.Prelude.{[], IfErr, IfOk, ◌/◌, ◌≡◌};
ghost use Rattle.sv_borrows.specs.Lending.{IsFree, MayLend};
ghost use Rattle.sv_gets.specs.Getting.{Gets, Goes};
ghost use Rattle.sv_gets.specs.Reading.{StopsRead};
ghost use Rattle.sv_slots.specs.Known.{CameWith, IsSameSeat, table_of, view_of};

use crate::reads::{Found, read};
use std::alloc::Global;
use std::sync::Wait;
use sv_borrows::{Seat, Table, give, lend};
use sv_dir::Dir;
use sv_model::{FamilyId, Key, Refusal, SvRef, SvSerial, Value};
use sv_objects::Body;

/// What a get found: the value, how many writes of the family it looked at, and through which SuperVersion.
#[derive(Drop, Debug)]
pub struct Got {
    pub value: Option<Value>,
    pub cut: u64,
    pub sv: SvSerial,
}

/// The serial of a SuperVersion.
pub fn serial_of(sv: &SvRef<Body>) -> SvSerial
    ensures { result ≡ sv.now.pack / 256 }
{
    let pack = sv.pack;
    pack.serial
}

/// The value of the key in the current SuperVersion of a family of which the lane has a handle. The lane borrows it from
/// its slot of the family, which caches it; the DB lock is taken only where the slot caches nothing, or something older,
/// or where a sweep was there when the borrow is given back. Refused as `DirFault` where the directory fails, and as
/// `BadFile` where a file is not there or is not the one that was written.
pub fn get_of<D: Dir + Drop, R: Wait>(
    rt: &R,
    alloc: Global,
    core: &Table<D>,
    seat: &mut Seat<D>,
    family: FamilyId,
    key: &Key,
) -> Result<Got, Refusal>
    requires table { CameWith (table_of core.now) seat.old }
    requires free { IsFree (view_of seat.old) × ((view_of seat.old).owes ≡ []) }
    requires lend { MayLend family (view_of seat.old) }
    ensures same { IsSameSeat seat.old seat.new }
    ensures goes { Goes family (view_of seat.old) (view_of seat.new) }
    ensures got { IfOk result (λ got. Gets family key.now got (view_of seat.old) (view_of seat.new)) }
    ensures stops { IfErr result (StopsRead (view_of seat.old) (view_of seat.new)) }
{
    let lent = lend(rt, core, seat, family)?;
    let sv = serial_of(lent.sv());
    let found = read(rt, alloc, core, seat, lent.sv(), key);
    give(rt, core, seat, lent);
    match found {
        Ok(Found { value, cut }) => Ok(Got { value, cut, sv }),
        Err(refusal) => Err(refusal),
    }
}
