// Handles of families, and their drop, by a lane of many.
ghost use Rattle.std.specs.Prelude.{[], ◌<◌, ◌≡◌};
ghost use Rattle.sv_borrows.specs.Lending.{IsFree};
ghost use Rattle.sv_handles.specs.Handling.{DropsFamily, OpensFamily};
ghost use Rattle.sv_rule.specs.LockPlays.{MayGiveDb, gave_db};
ghost use Rattle.sv_slots.specs.Known.{CameWith, IsSameSeat, table_of, view_of};
ghost use Rattle.sv_turns.specs.Owned.{opens_family};

use std::marker::Brand;
use std::sync::Wait;
use sv_borrows::{Held, Seat, Table};
use sv_dir::Dir;
use sv_model::{FamilyId, Name, Refusal};
use sv_rule::Tasked;

// The DB lock is given with books that have a handle of the family more for the lane.
fn give_opened<J: Tasked, D: Dir + Drop>(
    core: &Table<D>,
    seat: &mut Seat<D>,
    held: Held,
    _family: FamilyId,
)
    requires table { CameWith (table_of core.now) seat.old }
    requires picks { J.task ≡ opens_family _family (view_of seat.old).known.task }
    requires lock { MayGiveDb (view_of seat.old) held.books J.task }
    ensures same { IsSameSeat seat.old seat.new }
    ensures gave { view_of seat.new ≡ gave_db held.books (opens_family _family (view_of seat.old).known.task) (view_of seat.old) }
{
    core.give_state::<J>(seat, held);
}

/// Gives the lane a handle of the family that has the name and is not dropped. Refused as `AlreadyOpen` where the lane has
/// a handle of the name, then as `NoFamily`, of the books that the lane finds. The DB lock is taken once; takes no memory.
/// `lane` is the number of this lane.
pub fn open_family<D: Dir + Drop, R: Wait>(
    rt: &R,
    core: &Table<D>,
    seat: &mut Seat<D>,
    lane: u8,
    name: &Name,
) -> Result<FamilyId, Refusal>
    requires table { CameWith (table_of core.now) seat.old }
    requires free { IsFree (view_of seat.old) }
    requires lane { (lane < 32) × (lane ≡ (view_of seat.old).known.lane) }
    ensures same { IsSameSeat seat.old seat.new }
    ensures opens { OpensFamily lane name.now result (view_of seat.old) (view_of seat.new) }
{
    let mut held = core.take_state(rt, seat);
    match held.state.open_family(lane, name) {
        Ok(family) => {
            give_opened::<Brand, D>(core, seat, held, family);
            Ok(family)
        }
        Err(refusal) => {
            core.give_state::<Brand>(seat, held);
            Err(refusal)
        }
    }
}

/// Drops the family of the lane's handle of the name; lanes that have a handle of it keep it. Refused as `IsDefault` where
/// the name is `default`, then as `NotOpen` or `NoFamily` without a handle, then as `Dropped`, of the books that the lane
/// finds. The DB lock is taken once; takes no memory. `lane` is the number of this lane.
pub fn drop_family<D: Dir + Drop, R: Wait>(
    rt: &R,
    core: &Table<D>,
    seat: &mut Seat<D>,
    lane: u8,
    name: &Name,
) -> Result<FamilyId, Refusal>
    requires table { CameWith (table_of core.now) seat.old }
    requires free { IsFree (view_of seat.old) }
    requires lane { (lane < 32) × (lane ≡ (view_of seat.old).known.lane) }
    ensures same { IsSameSeat seat.old seat.new }
    ensures drops { DropsFamily lane name.now result (view_of seat.old) (view_of seat.new) }
{
    let mut held = core.take_state(rt, seat);
    let answer = held.state.drop_family(lane, name);
    core.give_state::<Brand>(seat, held);
    answer
}
