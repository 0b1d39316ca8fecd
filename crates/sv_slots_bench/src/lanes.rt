// What a thread does on its lane: it caches the SuperVersion of its family, and then borrows it again and again.
ghost use Rattle.std.specs.Prelude.{◌<◌};
ghost use Rattle.sv_slots.specs.Known.{CameWith, table_of, view_of};
ghost use Rattle.sv_slots_bench.specs.Ready.{IsReady};
ghost use Rattle.sv_slots_tests.specs.Unused.{CanBorrow};

use std::alloc::Global;
use std::sync::Wait;
use sv_model::FamilyId;
use sv_slots::{Back, Core, LaneSeat};
use sv_slots_tests::{World, fill};

/// A lane, with the family that it borrows from, and the pairs that it made.
#[derive(Drop)]
pub struct Work {
    pub seat: LaneSeat<World>,
    pub family: u8,
    pub done: u64,
    /// No two threads write to one line of the cache.
    pub apart: [u64; 16],
}

// How many pairs hit and were kept, up to the first that was not.
fn pairs(core: &Core<World>, seat: &mut LaneSeat<World>, family: u8, count: u64) -> u64
    requires table { CameWith (table_of core.now) seat.old }
    requires family { family < 4 }
    requires can { CanBorrow family (view_of seat.old) }
{
    let mut done = 0;
    while done < count {
        let Ok(borrow) = core.try_borrow(seat, FamilyId(family)) else {
            return done;
        };
        let Back::Kept = core.give_back(seat, borrow) else {
            return done;
        };
        done += 1;
    }
    done
}

/// Makes so many pairs.
pub fn run<R: Wait>(rt: &R, alloc: Global, core: &Core<World>, work: &mut Work, count: u64)
    requires { IsReady (table_of core.now) work.old }
{
    let family = work.family;
    let Ok(()) = fill(rt, alloc, core, &mut work.seat, family) else {
        return;
    };
    work.done = pairs(core, &mut work.seat, family, count);
}
