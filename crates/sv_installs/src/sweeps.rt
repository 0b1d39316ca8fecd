// The slots of a family are swept, under the DB lock, and then the reference of the SuperVersion before is dropped.
ghost use Rattle.std.specs.Prelude.{◌+◌, ◌<◌, ◌≡◌, ◌≤◌, ℕ};
ghost use Rattle.sv_installs.specs.Sweeping.{BeginsSweep, IsReclaimed, IsTurn};
ghost use Rattle.sv_rule.specs.Views.{LaneView};
ghost use Rattle.sv_slots.specs.Installs.{IsPassed};
ghost use Rattle.sv_slots.specs.Known.{CameWith, IsSameSeat, table_of, view_of};

use std::sync::Wait;
use sv_borrows::{Held, Seat, Table, clean};
use sv_dir::Dir;
use sv_model::{FamilyId, SvRef};
use sv_objects::Body;
use sv_slots::Sub;

// The slot of the lane in turn is swept. What it cached is not the last reference: the lane has one itself.
fn sweep_one<D: Dir + Drop>(core: &Table<D>, seat: &mut Seat<D>, family: FamilyId, lane: u8)
    requires table { CameWith (table_of core.now) seat.old }
    requires at { (family < 16) × (lane < 32) }
    requires turn { IsTurn family lane (view_of seat.old) }
    ensures same { IsSameSeat seat.old seat.new }
    ensures passed { (r : ℕ) (s : LaneView) → IsPassed family r s lane (view_of seat.old) → IsPassed family r s (lane + 1) (view_of seat.new) }
{
    let Some(sv) = core.sweep(seat, family, lane) else {
        return;
    };
    match core.drop_ref(seat, sv) {
        Sub::More => {}
        Sub::Last(_) => unreachable!(),
    }
}

// The slots of all lanes are swept.
fn sweep_all<D: Dir + Drop>(core: &Table<D>, seat: &mut Seat<D>, family: FamilyId, lanes: u8)
    requires table { CameWith (table_of core.now) seat.old }
    requires at { (family < 16) × (lanes ≤ 32) }
    requires turn { (lanes ≡ (view_of seat.old).seat.lanes) × IsTurn family 0 (view_of seat.old) }
    ensures same { IsSameSeat seat.old seat.new }
    ensures passed { (r : ℕ) (s : LaneView) → IsPassed family r s 0 (view_of seat.old) → IsPassed family r s lanes (view_of seat.new) }
{
    for lane in 0..lanes {
        sweep_one(core, seat, family, lane);
    }
}

/// The slots of all lanes are swept, and then the reference of the SuperVersion before is dropped. Where it was the last,
/// the SuperVersion is Gone with all that it alone named. Takes no memory.
pub fn retire<D: Dir + Drop, R: Wait>(
    rt: &R,
    core: &Table<D>,
    seat: &mut Seat<D>,
    held: &mut Held,
    lanes: u8,
    family: FamilyId,
    old: SvRef<Body>,
)
    requires table { CameWith (table_of core.now) seat.old }
    requires lanes { (family < 16) × (lanes ≤ 32) × (0 < lanes) × (lanes ≡ (view_of seat.old).seat.lanes) }
    requires begins { BeginsSweep held.old.books family old.pack (view_of seat.old) }
    ensures same { IsSameSeat seat.old seat.new }
    ensures reclaimed { IsReclaimed old.pack held.old.books held.new.books (view_of seat.old) (view_of seat.new) }
    ensures spare { held.new.spare ≡ held.old.spare }
{
    sweep_all(core, seat, family, lanes);
    let left = core.drop_ref(seat, old);
    clean(rt, core, seat, held, left);
}
