// A read of an active memtable, under the lock of its cell.
ghost use Rattle.std.specs.Prelude.{IfOk, Some, length, option_map, ◌+◌, ◌<◌, ◌≡◌};
ghost use Rattle.std.specs.Option.{option_copied};
ghost use Rattle.sv_borrows.specs.Lending.{IsFree};
ghost use Rattle.sv_borrows.specs.Parts.{body_of};
ghost use Rattle.sv_gets.specs.Reading.{HasRowsIn, MayRead, MetAt, Reads};
ghost use Rattle.sv_model.specs.Cells.{Cell};
ghost use Rattle.sv_model.specs.Journal.{value_of};
ghost use Rattle.sv_reads.specs.Parts.{FindsAfter};
ghost use Rattle.sv_rule.specs.LockPlays.{MayGiveCell, gave_cell};
ghost use Rattle.sv_slots.specs.Known.{CameWith, IsSameSeat, table_of, view_of};
ghost use Rattle.sv_slots.specs.Seats.{bodied};

use std::marker::Brand;
use std::sync::Wait;
use sv_borrows::{Seat, Slot, Table};
use sv_dir::Dir;
use sv_model::{Key, Op, OutOfMemory, SvRef, Value};
use sv_objects::Body;
use sv_reads::{find_active, value_left};
use sv_rule::Cuts;

/// What the active memtable has of a key, and where it ends.
#[derive(Drop)]
pub(crate) struct Met {
    pub(crate) cut: u64,
    pub(crate) found: Option<Option<Value>>,
}

// Where the rows of the body's active memtable end.
fn end_of(slot: &Slot, body: &Body) -> u64
    requires { HasRowsIn slot.now body.now.descriptor.base }
    ensures { (k : Cell) → slot.now ≡ Some k → result ≡ body.now.descriptor.base + length k.rows }
{
    let Some(active) = &slot.memtable else {
        unreachable!()
    };
    body.descriptor.base + u64::from(active.len())
}

// What the newest of its rows of the key does.
fn find_row<'a>(slot: &'a Slot, body: &Body, key: &Key, cut: u64) -> Option<&'a Op>
    ensures { (k : Cell) → slot.now ≡ Some k → FindsAfter body.now.descriptor.base k.rows key.now cut (option_copied result) }
{
    match &slot.memtable {
        Some(active) => find_active(active, body.descriptor.base, key, cut),
        None => None,
    }
}

// A copy of the value that a row leaves.
fn value_found(found: Option<&Op>) -> Result<Option<Option<Value>>, OutOfMemory>
    ensures { IfOk result (λ v. v ≡ option_map value_of (option_copied found.entry)) }
{
    match found {
        Some(op) => Ok(Some(value_left(op)?)),
        None => Ok(None),
    }
}

// The cell is given back as it was found, after a read up to the cut.
fn give_slot<J: Cuts, D: Dir + Drop>(
    core: &Table<D>,
    seat: &mut Seat<D>,
    body: &Body,
    slot: Slot,
    _cut: u64,
)
    requires table { CameWith (table_of core.now) seat.old }
    requires picks { (J.family ≡ body.now.descriptor.family) × (J.cut ≡ _cut) }
    requires cell { body.now.cell < 64 }
    requires lock { MayGiveCell (view_of seat.old) body.now.cell slot J.family J.cut }
    ensures same { IsSameSeat seat.old seat.new }
    ensures gave { view_of seat.new ≡ gave_cell body.now.descriptor.family _cut (view_of seat.old) }
{
    core.give_cell::<J>(seat, body.cell, slot);
}

/// Reads the active memtable of a SuperVersion of which the lane has a reference.
pub(crate) fn read_active<D: Dir + Drop, R: Wait>(
    rt: &R,
    core: &Table<D>,
    seat: &mut Seat<D>,
    sv: &SvRef<Body>,
    key: &Key,
) -> Result<Met, OutOfMemory>
    requires table { CameWith (table_of core.now) seat.old }
    requires free { IsFree (view_of seat.old) }
    requires sv { MayRead sv.now.body.value.descriptor.family (bodied body_of sv.now) (view_of seat.old) }
    ensures same { IsSameSeat seat.old seat.new }
    ensures reads { Reads 1 (view_of seat.old) (view_of seat.new) }
    ensures met { IfOk result (λ m. MetAt sv.now.body.value.descriptor.family (bodied body_of sv.now) key.now m.found m.cut (view_of seat.old) (view_of seat.new)) }
{
    let body: &Body = &sv.body;
    let slot = core.take_cell(rt, seat, body.cell);
    let cut = end_of(&slot, body);
    let found = value_found(find_row(&slot, body, key, cut));
    give_slot::<Brand, D>(core, seat, body, slot, cut);
    Ok(Met { cut, found: found? })
}
