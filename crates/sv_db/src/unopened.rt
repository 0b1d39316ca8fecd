// A name by which the lane has no handle.
ghost use Rattle.std.specs.Prelude.{[], ◌<◌, ◌≡◌};
ghost use Rattle.sv_borrows.specs.Lending.{IsFree};
ghost use Rattle.sv_db.specs.Handles.{HasNone};
ghost use Rattle.sv_db.specs.Locals.{HandlesFit};
ghost use Rattle.sv_db.specs.Named.{Asks};
ghost use Rattle.sv_slots.specs.Known.{CameWith, IsSameSeat, table_of, view_of};

use std::marker::Brand;
use std::sync::Wait;
use sv_borrows::{Seat, Table};
use sv_dir::Dir;
use sv_model::{Name, Refusal};

/// Why such a name is refused: as `NotOpen` where a family that is not dropped has it, else as `NoFamily`. The DB lock is
/// taken.
pub(crate) fn unopened<D: Dir + Drop, R: Wait>(
    rt: &R,
    core: &Table<D>,
    seat: &mut Seat<D>,
    lane: u8,
    _handles: &[Option<Name>],
    name: &Name,
) -> Refusal
    requires table { CameWith (table_of core.now) seat.old }
    requires free { IsFree (view_of seat.old) × ((view_of seat.old).owes ≡ []) }
    requires lane { (lane < 32) × (lane ≡ (view_of seat.old).known.lane) }
    requires handles { HandlesFit _handles.now (view_of seat.old) × HasNone name.now _handles.now }
    ensures same { IsSameSeat seat.old seat.new }
    ensures asks { Asks lane name.now result (view_of seat.old) (view_of seat.new) }
{
    let held = core.take_state(rt, seat);
    let found = held.state.find(lane, name);
    core.give_state::<Brand>(seat, held);
    match found {
        Err(refusal) => refusal,
        Ok(_) => unreachable!(),
    }
}
