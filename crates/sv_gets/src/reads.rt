// A read of a SuperVersion of which a lane has a reference: its active memtable, then its frozen ones, then its files.
ghost use Rattle.std.specs.Prelude.{IfErr, IfOk, ◌≡◌};
ghost use Rattle.sv_borrows.specs.Lending.{IsFree};
ghost use Rattle.sv_borrows.specs.Parts.{body_of};
ghost use Rattle.sv_gets.specs.Reading.{FindsIn, MayRead, Reads, StopsRead};
ghost use Rattle.sv_slots.specs.Known.{CameWith, IsSameSeat, table_of, view_of};
ghost use Rattle.sv_slots.specs.Seats.{bodied};

use crate::cells::{Met, read_active};
use crate::files::read_files;
use std::alloc::Global;
use std::sync::Wait;
use sv_borrows::{Seat, Table};
use sv_dir::Dir;
use sv_model::{Key, Refusal, SvRef, Value};
use sv_objects::Body;
use sv_reads::{find_frozen, into_value, value_left};

/// What was found in a SuperVersion, and up to which write of the family.
#[derive(Drop)]
pub(crate) struct Found {
    pub(crate) value: Option<Value>,
    pub(crate) cut: u64,
}

/// The value of the key after all writes of the family that the active memtable has.
pub(crate) fn read<D: Dir + Drop, R: Wait>(
    rt: &R,
    alloc: Global,
    core: &Table<D>,
    seat: &mut Seat<D>,
    sv: &SvRef<Body>,
    key: &Key,
) -> Result<Found, Refusal>
    requires table { CameWith (table_of core.now) seat.old }
    requires free { IsFree (view_of seat.old) }
    requires sv { MayRead sv.now.body.value.descriptor.family (bodied body_of sv.now) (view_of seat.old) }
    ensures same { IsSameSeat seat.old seat.new }
    ensures reads { Reads 1 (view_of seat.old) (view_of seat.new) }
    ensures found { IfOk result (λ r. FindsIn sv.now.body.value.descriptor.family (bodied body_of sv.now) key.now r.value r.cut (view_of seat.old) (view_of seat.new)) }
    ensures stops { IfErr result (StopsRead (view_of seat.old) (view_of seat.new)) }
{
    let Met { cut, found } = read_active(rt, core, seat, sv, key)?;
    if let Some(value) = found {
        return Ok(Found { value, cut });
    }
    if let Some(op) = find_frozen(&sv.body, key, cut) {
        let value = value_left(op)?;
        return Ok(Found { value, cut });
    }
    match read_files(rt, alloc, core, seat, sv, key, cut) {
        Ok(found) => Ok(Found {
            value: into_value(found),
            cut,
        }),
        Err(refusal) => Err(refusal),
    }
}
