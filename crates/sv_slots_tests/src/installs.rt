// A lane makes another SuperVersion of family 0 current, or ends its current, and sweeps the slots of the lanes.
ghost use Rattle.std.specs.Prelude.{◌+◌, ◌<◌, ◌≡◌};
ghost use Rattle.sv_rule.specs.SeatPlays.{IsIdle};
ghost use Rattle.sv_slots.specs.Known.{CameWith, IsSameSeat, table_of, view_of};
ghost use Rattle.sv_slots_tests.specs.Stages.{books_at, ended_books, installed_books, new_pack, old_pack};
ghost use Rattle.sv_slots_tests.specs.Sweeping.{IsLeft, IsOwing, IsSweeping};
ghost use Rattle.sv_slots_tests.specs.Unused.{IsAlone};

use crate::stages::Stage;
use crate::world::{Shared, World};
use std::marker::Brand;
use std::process::Abort;
use std::sync::Wait;
use sv_model::{FamilyId, SvRef};
use sv_slots::{Core, LaneSeat, Owed, Sub};

/// The new SuperVersion is current, and no slot is swept yet.
pub fn begin<R: Wait + Abort>(
    rt: &R,
    core: &Core<World>,
    seat: &mut LaneSeat<World>,
    new: &SvRef<Shared>,
)
    requires table { CameWith (table_of core.now) seat.old }
    requires unused { IsIdle (view_of seat.old) }
    requires new { (new.now.pack ≡ new_pack) × (new.now.body.value.family ≡ 0) }
    ensures same { IsSameSeat seat.old seat.new }
    ensures lanes { (view_of seat.new).seat.lanes ≡ (view_of seat.old).seat.lanes }
    ensures began { IsSweeping installed_books 0 (view_of seat.new) }
{
    let Stage::Opened = core.take_state(rt, seat) else {
        panic!(rt; "the books changed before")
    };
    let found = core.make_current::<Brand>(seat, &Stage::Installed, FamilyId(0), new);
    if found == 256 {
        return;
    }
    panic!(rt; "another number was found")
}

// The family has no current any more.
fn begin_end<R: Wait + Abort>(rt: &R, core: &Core<World>, seat: &mut LaneSeat<World>)
    requires table { CameWith (table_of core.now) seat.old }
    requires unused { IsIdle (view_of seat.old) }
    requires alone { IsAlone 1 seat.old }
    ensures same { IsSameSeat seat.old seat.new }
    ensures lanes { (view_of seat.new).seat.lanes ≡ 1 }
    ensures began { IsSweeping ended_books 0 (view_of seat.new) }
{
    let Stage::Opened = core.take_state(rt, seat) else {
        panic!(rt; "the books changed before")
    };
    let found = core.no_current::<Brand>(seat, &Stage::Ended, FamilyId(0));
    if found == 256 {
        return;
    }
    panic!(rt; "another number was found")
}

/// The slot of a lane is swept. Whether it cached the old SuperVersion.
pub fn pass(core: &Core<World>, seat: &mut LaneSeat<World>, stage: Stage, lane: u8) -> bool
    requires table { CameWith (table_of core.now) seat.old }
    requires lane { lane < 32 }
    requires turn { IsSweeping (books_at stage) lane (view_of seat.old) }
    ensures same { IsSameSeat seat.old seat.new }
    ensures lanes { (view_of seat.new).seat.lanes ≡ (view_of seat.old).seat.lanes }
    ensures passed { IsSweeping (books_at stage) (lane + 1) (view_of seat.new) }
{
    let Some(sv) = core.sweep(seat, FamilyId(0), lane) else {
        return false;
    };
    match core.drop_ref(seat, sv) {
        Sub::More => true,
        Sub::Last(_) => unreachable!(),
    }
}

/// All slots are swept: the old reference is dropped, and the DB lock given.
pub fn finish(
    core: &Core<World>,
    seat: &mut LaneSeat<World>,
    stage: Stage,
    old: SvRef<Shared>,
) -> Sub
    requires table { CameWith (table_of core.now) seat.old }
    requires old { old.pack ≡ old_pack }
    requires swept { IsSweeping (books_at stage) (view_of seat.old).seat.lanes (view_of seat.old) }
    ensures same { IsSameSeat seat.old seat.new }
    ensures left { IsLeft result (view_of seat.new) }
{
    let left = core.drop_ref(seat, old);
    core.give_state::<Brand>(seat, stage);
    left
}

/// An install by a lane of two. Whether each lane's slot cached the old SuperVersion, and what is left of it.
pub fn install<R: Wait + Abort>(
    rt: &R,
    core: &Core<World>,
    seat: &mut LaneSeat<World>,
    new: SvRef<Shared>,
    old: SvRef<Shared>,
) -> (bool, bool, Sub)
    requires table { CameWith (table_of core.now) seat.old }
    requires unused { IsIdle (view_of seat.old) }
    requires lanes { (view_of seat.old).seat.lanes ≡ 2 }
    requires new { (new.pack ≡ new_pack) × (new.body.value.family ≡ 0) }
    requires old { old.pack ≡ old_pack }
    ensures same { IsSameSeat seat.old seat.new }
    ensures left { IsLeft result.2 (view_of seat.new) }
{
    begin(rt, core, seat, &new);
    let first = pass(core, seat, Stage::Installed, 0);
    let second = pass(core, seat, Stage::Installed, 1);
    let left = finish(core, seat, Stage::Installed, old);
    (first, second, left)
}

/// The end of the family's current, by the only lane.
pub fn end_current<R: Wait + Abort>(
    rt: &R,
    core: &Core<World>,
    seat: &mut LaneSeat<World>,
    old: SvRef<Shared>,
) -> (bool, Sub)
    requires table { CameWith (table_of core.now) seat.old }
    requires unused { IsIdle (view_of seat.old) }
    requires alone { IsAlone 1 seat.old }
    requires old { old.pack ≡ old_pack }
    ensures same { IsSameSeat seat.old seat.new }
    ensures left { IsLeft result.1 (view_of seat.new) }
{
    begin_end(rt, core, seat);
    let own = pass(core, seat, Stage::Ended, 0);
    let left = finish(core, seat, Stage::Ended, old);
    (own, left)
}

/// The cleanup of the old SuperVersion, after an install.
pub fn clean<R: Wait + Abort>(rt: &R, core: &Core<World>, seat: &mut LaneSeat<World>, owed: Owed)
    requires table { CameWith (table_of core.now) seat.old }
    requires owed { IsOwing owed (view_of seat.old) }
    ensures same { IsSameSeat seat.old seat.new }
{
    let Stage::Installed = core.take_state(rt, seat) else {
        panic!(rt; "the books are not those of the install")
    };
    core.settle::<Brand>(seat, &Stage::Cleaned, owed);
    core.give_state::<Brand>(seat, Stage::Cleaned);
}
