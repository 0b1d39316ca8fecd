// A lane that has nothing makes its slot cache the current SuperVersion of a family.
ghost use Rattle.std.specs.Prelude.{◌<◌, IfOk};
ghost use Rattle.sv_rule.specs.SeatPlays.{IsIdle};
ghost use Rattle.sv_slots.specs.Known.{CameWith, IsSameSeat, table_of, view_of};
ghost use Rattle.sv_slots_tests.specs.Sweeping.{IsFree};
ghost use Rattle.sv_slots_tests.specs.Unused.{CanBorrow};

use crate::stages::Stage;
use crate::world::{Shared, World};
use std::alloc::{AllocFailed, Global};
use std::marker::Brand;
use std::sync::{Arc, Wait};
use sv_model::{FamilyId, Pack, SvRef, SvSerial};
use sv_slots::{Back, Core, LaneSeat};

/// Why a slot caches nothing.
#[derive(Debug, Drop)]
pub enum Unfilled {
    OutOfMemory,
    /// The books are no longer those of the opening.
    Late,
    /// A sweep was there.
    Swept,
}

impl<T: Drop> From<AllocFailed<T>> for Unfilled {
    fn from(_error: AllocFailed<T>) -> Unfilled {
        Unfilled::OutOfMemory
    }
}

/// The lane's slot caches the family's SuperVersion.
pub fn fill<R: Wait>(
    rt: &R,
    alloc: Global,
    core: &Core<World>,
    seat: &mut LaneSeat<World>,
    family: u8,
) -> Result<(), Unfilled>
    requires table { CameWith (table_of core.now) seat.old }
    requires family { family < 4 }
    requires unused { IsIdle (view_of seat.old) }
    ensures same { IsSameSeat seat.old seat.new }
    ensures free { IsFree (view_of seat.new) }
    ensures ok { IfOk result (λ _. CanBorrow family (view_of seat.new)) }
{
    let current = SvRef {
        pack: Pack {
            serial: SvSerial(u32::from(family) + 1),
            place: family,
        },
        body: Arc::new(alloc, Shared { family })?,
    };
    let state = core.take_state(rt, seat);
    let Stage::Opened = state else {
        core.give_state::<Brand>(seat, state);
        return Err(Unfilled::Late);
    };
    let Ok(fresh) = core.add_ref(seat, &current) else {
        core.give_state::<Brand>(seat, Stage::Opened);
        return Err(Unfilled::OutOfMemory);
    };
    let borrow = core.borrow_locked(seat, FamilyId(family), fresh);
    core.give_state::<Brand>(seat, Stage::Opened);
    match core.give_back(seat, borrow) {
        Back::Kept => Ok(()),
        Back::Swept(_) => Err(Unfilled::Swept),
    }
}
