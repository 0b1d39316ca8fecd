// A lane gives up what its slots cache, under the DB lock.
ghost use Rattle.std.specs.Prelude.{length, ℕ, ◌<◌, ◌≡◌};
ghost use Rattle.sv_borrows.specs.Lending.{IsFree};
ghost use Rattle.sv_rests.specs.Resting.{GivesUp, Rests, RestsTo};
ghost use Rattle.sv_rule.specs.Table.{slot_of};
ghost use Rattle.sv_rule.specs.Views.{away, idle};
ghost use Rattle.sv_slots.specs.Known.{CameWith, IsSameSeat, table_of, view_of};
ghost use Rattle.sv_slots.specs.Seats.{HasDesk};

use std::marker::Brand;
use std::sync::Wait;
use sv_borrows::{Seat, Table};
use sv_dir::Dir;
use sv_model::{FamilyId, MAX_FAMILIES};
use sv_slots::Sub;

// The lane's slot of a family caches nothing any more. While the lane has the DB lock and no work, no sweep is under way,
// so what the slot caches is the current: the number word has a reference of it too. Tells whether it cached one.
fn rest_one<D: Dir + Drop>(core: &Table<D>, seat: &mut Seat<D>, family: FamilyId) -> bool
    requires table { CameWith (table_of core.now) seat.old }
    requires family { (family < 16) × (slot_of (view_of seat.old) family ≡ away) }
    requires desk { HasDesk (view_of seat.old) (λ d. d.work ≡ idle) }
    requires room { length (view_of seat.old).hand < 65500 }
    ensures same { IsSameSeat seat.old seat.new }
    ensures gives_up { GivesUp family result (view_of seat.old) (view_of seat.new) }
{
    let Some(sv) = core.rest(seat, family) else {
        return false;
    };
    match core.drop_ref(seat, sv) {
        Sub::More => true,
        Sub::Last(_) => unreachable!(),
    }
}

// The same of all families. Tells of how many the slot cached one.
fn rest_all<D: Dir + Drop>(core: &Table<D>, seat: &mut Seat<D>) -> u32
    requires table { CameWith (table_of core.now) seat.old }
    requires away { (f : ℕ) → f < 16 → slot_of (view_of seat.old) f ≡ away }
    requires desk { HasDesk (view_of seat.old) (λ d. d.work ≡ idle) }
    requires room { length (view_of seat.old).hand < 65500 }
    ensures same { IsSameSeat seat.old seat.new }
    ensures rests { RestsTo 16 result (view_of seat.old) (view_of seat.new) }
{
    let mut count = 0;
    for number in 0..MAX_FAMILIES as u8 {
        if rest_one(core, seat, FamilyId(number)) {
            count += 1;
        }
    }
    count
}

/// The lane gives up the SuperVersions that its slots cache, of all families, and tells how many those were. The DB lock
/// is taken once, so each is the current of its family, and none of these references is the last. Takes no memory.
pub fn rest<D: Dir + Drop, R: Wait>(rt: &R, core: &Table<D>, seat: &mut Seat<D>) -> u32
    requires table { CameWith (table_of core.now) seat.old }
    requires free { IsFree (view_of seat.old) }
    requires away { (f : ℕ) → f < 16 → slot_of (view_of seat.old) f ≡ away }
    ensures same { IsSameSeat seat.old seat.new }
    ensures rests { Rests result (view_of seat.old) (view_of seat.new) }
{
    let held = core.take_state(rt, seat);
    let count = rest_all(core, seat);
    core.give_state::<Brand>(seat, held);
    count
}
