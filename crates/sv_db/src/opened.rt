// A database opens, with its lanes.
ghost use Rattle.std.specs.Prelude.{[], IfErr, IfOk, length, map, vec_capacity, ◌<◌, ◌≡◌, ◌≤◌};
ghost use Rattle.sv_db.specs.Locals.{IsLocal};
ghost use Rattle.sv_db.specs.Opening.{AreFirst, new_start};
ghost use Rattle.sv_model.specs.Lists.{Every};
ghost use Rattle.sv_slots.specs.Known.{table_of};
ghost use Rattle.sv_slots.specs.Openings.{AreOpened};

use crate::locals::{Db, Local};
use crate::openings::open;
use std::alloc::Global;
use sv_borrows::Seat;
use sv_dir::Dir;
use sv_model::FileNumber;

// Each seat is that of the next lane.
fn seat_lanes<D: Dir + Drop>(
    mut locals: Vec<Local<D>>,
    mut seats: Vec<Seat<D>>,
    lanes: u8,
) -> Vec<Local<D>>
    requires none { locals.items ≡ [] }
    requires room { (length seats.items ≡ lanes) × (lanes ≤ vec_capacity locals) }
    ensures seated { map (λ x. x.seat) result.items ≡ seats.items }
    ensures first { AreFirst (map (λ x. (x.lane, x.handles, x.pins)) result.items) }
{
    for lane in 0..lanes {
        let local = Local::new(lane, seats.remove(0));
        match locals.push(local) {
            Ok(()) => {}
            Err(_) => unreachable!(),
        }
    }
    locals
}

/// Opens a database that is new: its one family is `default`, without writes and files, and each lane has a handle of
/// it and no pin. It has `lanes` lanes, 1 to 32, that of lane 0 first. `next` is the number of the first file that it
/// makes, from 1, above those that the directory's names give; files that the directory has already stay as they are,
/// and the database knows none of them. Where there is no memory the directory comes back as it was.
pub fn open_db<D: Dir + Drop>(
    alloc: Global,
    lanes: u8,
    next: FileNumber,
    dir: Box<D>,
) -> Result<(Db<D>, Vec<Local<D>>), Box<D>>
    requires lanes { (0 < lanes) × (lanes ≤ 32) }
    requires next { 1 ≤ next }
    ensures lanes { IfOk result (λ t. t.0.lanes ≡ lanes) }
    ensures opened { IfOk result (λ t. AreOpened (table_of t.0.core) lanes (new_start (D.files dir.value) (D.faults dir.value) next) (map (λ x. x.seat) t.1.items)) }
    ensures local { IfOk result (λ t. Every (λ x. IsLocal (table_of t.0.core) t.0.lanes x.lane x.handles x.pins x.seat) t.1.items) }
    ensures err { IfErr result (λ back. back ≡ dir) }
{
    let Ok(locals) = Vec::with_capacity(alloc, lanes as usize) else {
        return Err(dir);
    };
    let (core, seats) = open(alloc, lanes, next, dir)?;
    let locals = seat_lanes(locals, seats, lanes);
    Ok((Db { core, lanes }, locals))
}
