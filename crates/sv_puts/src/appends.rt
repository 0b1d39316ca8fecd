// A row is written into the journal and into its memtable.
ghost use Rattle.std.specs.Prelude.{[], IfErr, IfOk, List, OnErr, OnOk, Some, length, ◌+◌, ◌<◌, ◌≡◌};
ghost use Rattle.sv_borrows.specs.Desks.{GoesOn, IsAtDesk};
ghost use Rattle.sv_model.specs.Cells.{Cell};
ghost use Rattle.sv_model.specs.declared.limits.TheConstants.{MAX_ROWS};
ghost use Rattle.sv_puts.specs.Rows.{Appends, CanAppend, with_row};
ghost use Rattle.sv_rule.specs.Blanks.{desk_of};
ghost use Rattle.sv_rule.specs.LockPlays.{MayWriteCell, wrote_cell};
ghost use Rattle.sv_slots.specs.Known.{CameWith, IsSameSeat, table_of, view_of};

use crate::cells::{give_same, take_active};
use std::marker::Brand;
use std::sync::Wait;
use sv_borrows::{Held, Seat, Slot, Table};
use sv_dir::Dir;
use sv_model::{FamilyId, OutOfMemory, Row};
use sv_rule::Writes;

// One row more in the memtable of the cell. A refusal leaves it as it was.
fn add_row(slot: &mut Slot, row: &Row) -> Result<(), OutOfMemory>
    requires { (k : Cell) × (slot.old ≡ Some k) × (length k.rows < MAX_ROWS) }
    ensures added { (k : Cell) → slot.old ≡ Some k → OnOk result (slot.new ≡ Some (with_row k row.now)) }
    ensures kept { OnErr result (slot.new ≡ slot.old) }
{
    let Some(active) = &mut slot.memtable else {
        unreachable!()
    };
    active.add(&row.key, &row.op)
}

// The cell is given with the row of the last write of the journal, which is of this number in its family.
fn give_written<J: Writes, D: Dir + Drop>(
    core: &Table<D>,
    seat: &mut Seat<D>,
    held: &Held,
    number: u8,
    slot: Slot,
    _family: FamilyId,
    _count: u64,
)
    requires table { CameWith (table_of core.now) seat.old }
    requires within { number < 64 }
    requires picks { (J.cell ≡ number) × (J.books ≡ held.now.books) × (J.desk ≡ desk_of (view_of seat.old)) }
    requires met { (J.task ≡ (view_of seat.old).known.task) × (J.family ≡ _family) × (J.seen ≡ _count) }
    requires lock { MayWriteCell (view_of seat.old) number held.now.books (view_of seat.old).known.task J.more slot _family _count }
    ensures same { IsSameSeat seat.old seat.new }
    ensures gave { view_of seat.new ≡ wrote_cell (desk_of (view_of seat.old)) number held.now.books (view_of seat.old).known.task J.more _family _count (view_of seat.old) }
{
    core.write_cell::<J>(seat, number, slot, held);
}

/// The row is the last of the journal and of the family's active memtable, which is in this cell. The lane has the DB
/// lock. Gives the write's number in the family. Out of memory leaves all as it was.
pub(crate) fn append<D: Dir + Drop, R: Wait>(
    rt: &R,
    core: &Table<D>,
    seat: &mut Seat<D>,
    held: &mut Held,
    lane: u8,
    family: FamilyId,
    number: u8,
    row: Row,
) -> Result<u64, OutOfMemory>
    requires table { CameWith (table_of core.now) seat.old }
    requires desk { IsAtDesk held.old.books [] (view_of seat.old) }
    requires lane { lane ≡ (view_of seat.old).known.lane }
    requires can { CanAppend held.old lane family number }
    ensures same { IsSameSeat seat.old seat.new }
    ensures ok { IfOk result (λ n. Appends held.old.books held.new.books family row n (view_of seat.old) (view_of seat.new)) }
    ensures spare { OnOk result (held.new.spare + 1 ≡ held.old.spare) }
    ensures err { IfErr result (λ _. (held.new ≡ held.old) × GoesOn held.old.books [] (view_of seat.old) (view_of seat.new)) }
{
    let mut slot = take_active(rt, core, seat, held, family, number);
    if let Err(refusal) = add_row(&mut slot, &row) {
        give_same(core, seat, held, number, slot);
        return Err(refusal);
    }
    let count = held.state.write_done(lane, family, row);
    give_written::<Brand, D>(core, seat, held, number, slot, family, count);
    Ok(count)
}
