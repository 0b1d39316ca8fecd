// A family that is retired has no current any more in the table either.
ghost use Rattle.std.specs.Prelude.{None, [], length, ◌<◌, ◌≡◌, ◌≤◌};
ghost use Rattle.sv_model.specs.Lists.{same, total};
ghost use Rattle.sv_releases.specs.Releasing.{IsEnded, MayRetire, Retires};
ghost use Rattle.sv_rule.specs.RoundPlays.{MayEndCurrent};
ghost use Rattle.sv_slots.specs.Known.{CameWith, IsSameSeat, table_of, view_of};
ghost use Rattle.sv_slots.specs.declared.table.TheConstants.{MAX_HAND};
ghost use Rattle.sv_turns.specs.Owned.{releases};

use std::marker::Brand;
use std::sync::Wait;
use sv_borrows::{Held, Seat, Table};
use sv_dir::Dir;
use sv_installs::retire;
use sv_model::{FamilyId, SvRef};
use sv_objects::Body;
use sv_slots::Installing;

// The number word shows no current, and no slot is swept yet. Of the lane's own the handle is gone.
fn show_none<J: Installing, D: Dir + Drop>(
    core: &Table<D>,
    seat: &mut Seat<D>,
    held: &Held,
    family: FamilyId,
)
    requires table { CameWith (table_of core.now) seat.old }
    requires picks { (J.task ≡ releases family (view_of seat.old).known.task) × (J.olds ≡ []) }
    requires room { length (view_of seat.old).hand < MAX_HAND }
    requires may { (family < 16) × MayEndCurrent (view_of seat.old) family held.now.books J.task }
    ensures same { IsSameSeat seat.old seat.new }
    ensures ended { IsEnded family held.now.books (releases family (view_of seat.old).known.task) (view_of seat.old) (view_of seat.new) }
{
    core.no_current::<J>(seat, held, family);
}

// The family, which is retired in the books, has no current in the table any more: the slots of all lanes are swept, and
// the SuperVersion before, whose reference is given, goes where nobody else has one. The lane has the DB lock.
pub(crate) fn end_current<D: Dir + Drop, R: Wait>(
    rt: &R,
    core: &Table<D>,
    seat: &mut Seat<D>,
    held: &mut Held,
    lanes: u8,
    family: FamilyId,
    old: SvRef<Body>,
)
    requires table { CameWith (table_of core.now) seat.old }
    requires lanes { (lanes ≤ 32) × (0 < lanes) × (lanes ≡ (view_of seat.old).seat.lanes) }
    requires may { MayRetire held.old.books family old.pack (releases family (view_of seat.old).known.task) (view_of seat.old) }
    ensures same { IsSameSeat seat.old seat.new }
    ensures retires { Retires family held.old.books held.new.books (releases family (view_of seat.old).known.task) (view_of seat.old) (view_of seat.new) }
{
    show_none::<Brand, D>(core, seat, held, family);
    retire(rt, core, seat, held, lanes, family, old);
}
