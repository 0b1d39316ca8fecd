// A put and a delete of a lane of many.
ghost use Rattle.std.specs.Prelude.{IfErr, IfOk, None, [], length, ◌+◌, ◌<◌, ◌≡◌, ◌≤◌};
ghost use Rattle.sv_borrows.specs.Desks.{GoesOn, IsAtDesk};
ghost use Rattle.sv_borrows.specs.Lending.{IsFree};
ghost use Rattle.sv_model.specs.Refusals.{Refuses};
ghost use Rattle.sv_puts.specs.Putting.{Puts};
ghost use Rattle.sv_puts.specs.Rows.{Appends, CanAppend};
ghost use Rattle.sv_puts.specs.Locked.{PutsLocked};
ghost use Rattle.sv_slots.specs.Known.{CameWith, IsSameSeat, table_of, view_of};
ghost use Rattle.sv_slots.specs.declared.table.TheConstants.{MAX_HAND};
ghost use Rattle.sv_state.specs.Currents.{OwnHaveCurrents};

use crate::appends::append;
use crate::switches::switch;
use std::alloc::Global;
use std::marker::Brand;
use std::sync::Wait;
use sv_borrows::{Held, Seat, Table};
use sv_dir::Dir;
use sv_model::{FamilyId, Name, OutOfMemory, Refusal, Row};
use sv_state::Plan;

// The row is the last of the family's active memtable, which is in this cell. A refusal is want of memory.
fn add<D: Dir + Drop, R: Wait>(
    rt: &R,
    core: &Table<D>,
    seat: &mut Seat<D>,
    held: &mut Held,
    lane: u8,
    family: FamilyId,
    number: u8,
    row: Row,
) -> Result<u64, Refusal>
    requires table { CameWith (table_of core.now) seat.old }
    requires desk { IsAtDesk held.old.books [] (view_of seat.old) }
    requires lane { lane ≡ (view_of seat.old).known.lane }
    requires can { CanAppend held.old lane family number }
    ensures same { IsSameSeat seat.old seat.new }
    ensures ok { IfOk result (λ n. Appends held.old.books held.new.books family row n (view_of seat.old) (view_of seat.new)) }
    ensures err { IfErr result (λ _. (held.new ≡ held.old) × GoesOn held.old.books [] (view_of seat.old) (view_of seat.new)) }
    ensures refused { Refuses None result }
{
    match append(rt, core, seat, held, lane, family, number, row) {
        Ok(count) => Ok(count),
        Err(OutOfMemory) => Err(Refusal::OutOfMemory),
    }
}

// With the DB lock: the row is written where the plan says.
fn put_locked<D: Dir + Drop, R: Wait>(
    rt: &R,
    alloc: Global,
    core: &Table<D>,
    seat: &mut Seat<D>,
    held: &mut Held,
    lanes: u8,
    lane: u8,
    name: &Name,
    row: Row,
) -> Result<u64, Refusal>
    requires table { CameWith (table_of core.now) seat.old }
    requires lanes { (lanes ≤ 32) × (0 < lanes) × (lanes ≡ (view_of seat.old).seat.lanes) }
    requires lane { (lane < 32) × (lane ≡ (view_of seat.old).known.lane) }
    requires desk { IsAtDesk held.old.books [] (view_of seat.old) × ((view_of seat.old).owes ≡ []) }
    requires room { length (view_of seat.old).hand + 1 < MAX_HAND }
    requires current { OwnHaveCurrents held.old.books lane name.now }
    ensures same { IsSameSeat seat.old seat.new }
    ensures puts { PutsLocked lane name.now row result held.old.books held.new.books (view_of seat.old) (view_of seat.new) }
{
    let plan = match held.state.write_plan(lane, name) {
        Ok(plan) => plan,
        Err(refusal) => return Err(refusal),
    };
    match plan {
        Plan::Add { family, cell } => add(rt, core, seat, held, lane, family, cell, row),
        Plan::Switch { family, cell } => {
            let cell = match switch(rt, alloc, core, seat, held, lanes, family, cell) {
                Ok(cell) => cell,
                Err(refusal) => return Err(refusal),
            };
            add(rt, core, seat, held, lane, family, cell, row)
        }
    }
}

/// Writes a row into the family of the lane's handle of the name, and gives its number in the family. The lane's gets of
/// the family look at it from now on. A switch to a new memtable comes first where the active one has as many rows as the
/// family's options say. `lanes` is how many lanes the table has, `lane` the number of this one.
///
/// Refused as `NotOpen` or `NoFamily` without a handle, then as `Dropped`, `JournalFull`, and where a switch is due as
/// `Stalled`, `TooManyMemtables`, `RegisterFull` and `TooManyLive`, of the books that the lane finds. Only out of memory
/// may leave the switch done.
pub fn put<D: Dir + Drop, R: Wait>(
    rt: &R,
    alloc: Global,
    core: &Table<D>,
    seat: &mut Seat<D>,
    lanes: u8,
    lane: u8,
    name: &Name,
    row: Row,
) -> Result<u64, Refusal>
    requires table { CameWith (table_of core.now) seat.old }
    requires free { IsFree (view_of seat.old) × ((view_of seat.old).owes ≡ []) }
    requires lanes { (lanes ≤ 32) × (0 < lanes) × (lanes ≡ (view_of seat.old).seat.lanes) }
    requires lane { (lane < 32) × (lane ≡ (view_of seat.old).known.lane) }
    ensures same { IsSameSeat seat.old seat.new }
    ensures puts { Puts lane name.now row result (view_of seat.old) (view_of seat.new) }
{
    let mut held = core.take_state(rt, seat);
    let answer = put_locked(rt, alloc, core, seat, &mut held, lanes, lane, name, row);
    core.give_state::<Brand>(seat, held);
    answer
}
