// A family switches to a new memtable, under the DB lock.
ghost use Rattle.std.specs.Prelude.{IfErr, IfOk, Some, [], length, ℕ, ◌+◌, ◌<◌, ◌∷◌, ◌≡◌, ◌≤◌};
ghost use Rattle.sv_borrows.specs.Desks.{GoesOn, IsAtDesk};
ghost use Rattle.sv_cells.specs.Calls.{memtables_refusal};
ghost use Rattle.sv_model.specs.declared.sv_refs.SvRef.{SvRef};
ghost use Rattle.sv_objects.specs.declared.bodies.Body.{Body};
ghost use Rattle.sv_model.specs.Refusals.{Refuses, first_due};
ghost use Rattle.sv_puts.specs.Switching.{CanSwitchIn, SwitchesTo};
ghost use Rattle.sv_registry.specs.Calls.{make_refusal};
ghost use Rattle.sv_slots.specs.Known.{CameWith, IsSameSeat, table_of, view_of};
ghost use Rattle.sv_slots.specs.declared.table.TheConstants.{MAX_HAND};

use crate::freezes::freeze;
use std::alloc::Global;
use std::sync::Wait;
use sv_borrows::{Held, Seat, Table};
use sv_dir::Dir;
use sv_installs::install_filled;
use sv_memtable::MemCell;
use sv_model::{FamilyId, MemId, Refusal, SvRef};
use sv_objects::Body;

/// Freezes the family's active memtable, which is in this cell and has a row; a new one without rows is active. Gives its
/// cell. A refusal leaves the books as they were.
pub(crate) fn switch<D: Dir + Drop, R: Wait>(
    rt: &R,
    alloc: Global,
    core: &Table<D>,
    seat: &mut Seat<D>,
    held: &mut Held,
    lanes: u8,
    family: FamilyId,
    number: u8,
) -> Result<u8, Refusal>
    requires table { CameWith (table_of core.now) seat.old }
    requires lanes { (lanes ≤ 32) × (0 < lanes) × (lanes ≡ (view_of seat.old).seat.lanes) }
    requires desk { IsAtDesk held.old.books [] (view_of seat.old) × ((view_of seat.old).owes ≡ []) }
    requires room { length (view_of seat.old).hand + 1 < MAX_HAND }
    requires can { (family < 16) × CanSwitchIn held.old.books family number }
    ensures same { IsSameSeat seat.old seat.new }
    ensures ok { IfOk result (SwitchesTo held.old.books held.new.books family (view_of seat.old) (view_of seat.new)) }
    ensures err { IfErr result (λ _. (held.new ≡ held.old) × GoesOn held.old.books [] (view_of seat.old) (view_of seat.new)) }
    ensures refused { Refuses (first_due (memtables_refusal held.old.books.memtables ∷ make_refusal held.old.books.supers ∷ [])) result }
    ensures spare { held.new.spare ≡ held.old.spare }
{
    let Ok(frozen) = freeze(rt, alloc, core, seat, held, family, number) else {
        return Err(Refusal::OutOfMemory);
    };
    let Ok(mut memtable) = Box::new(alloc, MemCell::new(alloc, MemId(0))) else {
        return Err(Refusal::OutOfMemory);
    };
    let install = match held.state.switch(family, frozen) {
        Ok(install) => install,
        Err(refusal) => return Err(refusal),
    };
    let (cell, id) = place_of(install.vacant);
    let old = before(install.old);
    *memtable = MemCell::new(alloc, id);
    install_filled(rt, core, seat, held, lanes, family, old, cell, memtable);
    Ok(cell)
}

// The cell of the new memtable, and its id.
fn place_of(vacant: Option<(u8, MemId)>) -> (u8, MemId)
    requires { (x : ℕ × ℕ) × (vacant ≡ Some x) }
    ensures { vacant ≡ Some result }
{
    match vacant {
        Some(place) => place,
        None => unreachable!(),
    }
}

// The reference of the SuperVersion before.
fn before(old: Option<SvRef<Body>>) -> SvRef<Body>
    requires { (r : SvRef Body) × (old ≡ Some r) }
    ensures { old ≡ Some result }
{
    match old {
        Some(old) => old,
        None => unreachable!(),
    }
}
