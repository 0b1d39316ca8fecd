// The cell of a family's active memtable, under the DB lock.
ghost use Rattle.std.specs.Prelude.{[], Some, ◌<◌, ◌≡◌};
ghost use Rattle.sv_borrows.specs.Desks.{IsAtDesk};
ghost use Rattle.sv_puts.specs.Rows.{HasActive};
ghost use Rattle.sv_rule.specs.Blanks.{desk_of};
ghost use Rattle.sv_rule.specs.Fits.{cell_of};
ghost use Rattle.sv_rule.specs.LockPlays.{MayWriteCell, took_cell, wrote_cell};
ghost use Rattle.sv_slots.specs.Known.{CameWith, IsSameSeat, table_of, view_of};

use std::marker::Brand;
use std::sync::Wait;
use sv_borrows::{Held, Seat, Slot, Table};
use sv_dir::Dir;
use sv_model::FamilyId;

/// Takes the lock of this cell, which has the family's active memtable. The lane has the DB lock.
pub(crate) fn take_active<D: Dir + Drop, R: Wait>(
    rt: &R,
    core: &Table<D>,
    seat: &mut Seat<D>,
    _held: &Held,
    _family: FamilyId,
    number: u8,
) -> Slot
    requires table { CameWith (table_of core.now) seat.old }
    requires desk { IsAtDesk _held.now.books [] (view_of seat.old) }
    requires active { HasActive _held.now.books _family number }
    ensures same { IsSameSeat seat.old seat.new }
    ensures took { view_of seat.new ≡ took_cell number result (view_of seat.old) }
    ensures found { (h : HasActive _held.now.books _family number) → result ≡ Some (cell_of _held.now.books.journal h.it.descriptor.active) }
{
    core.take_cell(rt, seat, number)
}

/// Gives a cell back as the books have it, which are as the lane found them.
pub(crate) fn give_same<D: Dir + Drop>(
    core: &Table<D>,
    seat: &mut Seat<D>,
    held: &Held,
    number: u8,
    slot: Slot,
)
    requires table { CameWith (table_of core.now) seat.old }
    requires within { number < 64 }
    requires lock { MayWriteCell (view_of seat.old) number held.now.books (view_of seat.old).known.task [] slot 0 0 }
    ensures same { IsSameSeat seat.old seat.new }
    ensures gave { view_of seat.new ≡ wrote_cell (desk_of (view_of seat.old)) number held.now.books (view_of seat.old).known.task [] 0 0 (view_of seat.old) }
{
    core.write_cell::<Brand>(seat, number, slot, held);
}
