// The rows of a family's active memtable, frozen.
ghost use Rattle.std.specs.Arc.{arc_value};
ghost use Rattle.std.specs.Prelude.{[], IfOk, Some, ◌≡◌};
ghost use Rattle.sv_borrows.specs.Desks.{GoesOn, IsAtDesk};
ghost use Rattle.sv_model.specs.Cells.{Cell};
ghost use Rattle.sv_puts.specs.Rows.{HasActive};
ghost use Rattle.sv_rule.specs.Fits.{cell_of};
ghost use Rattle.sv_slots.specs.Known.{CameWith, IsSameSeat, table_of, view_of};

use crate::cells::{give_same, take_active};
use std::alloc::Global;
use std::sync::{Arc, Wait};
use sv_borrows::{Held, Seat, Slot, Table};
use sv_dir::Dir;
use sv_memtable::Frozen;
use sv_model::{FamilyId, OutOfMemory};

// The rows of the memtable in the cell.
fn frozen_in(slot: &Slot) -> Result<Frozen, OutOfMemory>
    requires { (k : Cell) × (slot.now ≡ Some k) }
    ensures { IfOk result (λ frozen. slot.now ≡ Some frozen) }
{
    let Some(active) = &slot.memtable else {
        unreachable!()
    };
    active.freeze()
}

/// The rows of the family's active memtable, which is in this cell. The lane has the DB lock. The memtable stays as it
/// is.
pub(crate) fn freeze<D: Dir + Drop, R: Wait>(
    rt: &R,
    alloc: Global,
    core: &Table<D>,
    seat: &mut Seat<D>,
    held: &Held,
    family: FamilyId,
    number: u8,
) -> Result<Arc<Frozen>, OutOfMemory>
    requires table { CameWith (table_of core.now) seat.old }
    requires desk { IsAtDesk held.now.books [] (view_of seat.old) }
    requires active { HasActive held.now.books family number }
    ensures same { IsSameSeat seat.old seat.new }
    ensures goes { GoesOn held.now.books [] (view_of seat.old) (view_of seat.new) }
    ensures ok { IfOk result (λ frozen. (h : HasActive held.now.books family number) → arc_value frozen ≡ cell_of held.now.books.journal h.it.descriptor.active) }
{
    let slot = take_active(rt, core, seat, held, family, number);
    let frozen = frozen_in(&slot);
    give_same(core, seat, held, number, slot);
    let Ok(frozen) = Arc::new(alloc, frozen?) else {
        return Err(OutOfMemory);
    };
    Ok(frozen)
}
