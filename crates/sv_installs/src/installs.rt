// An install without a new memtable: an option is set, or a flush or a compaction ends.
ghost use Rattle.std.specs.Prelude.{None, [], length, ◌+◌, ◌<◌, ◌≡◌, ◌≤◌};
ghost use Rattle.sv_borrows.specs.Parts.{body_of};
ghost use Rattle.sv_installs.specs.Installing.{Installs, IsInstalled, MayInstall};
ghost use Rattle.sv_rule.specs.ReferencePlays.{MayOpen};
ghost use Rattle.sv_slots.specs.Known.{CameWith, IsSameSeat, table_of, view_of};
ghost use Rattle.sv_slots.specs.Seats.{bodied};
ghost use Rattle.sv_slots.specs.declared.table.TheConstants.{MAX_HAND};

use crate::sweeps::retire;
use std::marker::Brand;
use std::sync::Wait;
use sv_borrows::{Held, Seat, Table};
use sv_dir::Dir;
use sv_model::{FamilyId, SvRef};
use sv_objects::Body;
use sv_slots::Installing;

// The SuperVersion is current, and no slot is swept yet. What the books have of the lane's own is as it was.
pub(crate) fn make_current<J: Installing, D: Dir + Drop>(
    core: &Table<D>,
    seat: &mut Seat<D>,
    held: &Held,
    family: FamilyId,
    new: &SvRef<Body>,
)
    requires table { CameWith (table_of core.now) seat.old }
    requires picks { (J.task ≡ (view_of seat.old).known.task) × (J.olds ≡ []) }
    requires room { length (view_of seat.old).hand + 1 < MAX_HAND }
    requires may { (family < 16) × MayOpen (view_of seat.old) family (bodied body_of new.now) held.now.books J.task }
    ensures same { IsSameSeat seat.old seat.new }
    ensures installed { IsInstalled family (bodied body_of new.now) held.now.books (view_of seat.old) (view_of seat.new) }
{
    core.make_current::<J>(seat, held, family, new);
}

/// The SuperVersion that the state has as the family's current is that of the table too: the slots of all `lanes` lanes
/// are swept, and the one before, whose reference is given, goes where nobody else has one. The lane has the DB lock.
/// Takes no memory.
pub fn install<D: Dir + Drop, R: Wait>(
    rt: &R,
    core: &Table<D>,
    seat: &mut Seat<D>,
    held: &mut Held,
    lanes: u8,
    family: FamilyId,
    old: SvRef<Body>,
)
    requires table { CameWith (table_of core.now) seat.old }
    requires lanes { (lanes ≤ 32) × (0 < lanes) × (lanes ≡ (view_of seat.old).seat.lanes) }
    requires may { MayInstall held.old.books family old.pack None (view_of seat.old) }
    ensures same { IsSameSeat seat.old seat.new }
    ensures installs { Installs family held.old.books held.new.books (view_of seat.old) (view_of seat.new) }
    ensures spare { held.new.spare ≡ held.old.spare }
{
    make_current::<Brand, D>(core, seat, held, family, held.state.current(family));
    retire(rt, core, seat, held, lanes, family, old);
}
