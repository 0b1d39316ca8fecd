// An install with a new memtable.
ghost use Rattle.std.specs.Prelude.{[], Some, length, ◌<◌, ◌≡◌, ◌≤◌};
ghost use Rattle.sv_installs.specs.Installing.{Installs, MayInstall};
ghost use Rattle.sv_rule.specs.Blanks.{desk_of};
ghost use Rattle.sv_rule.specs.LockPlays.{MayWriteCell, wrote_cell};
ghost use Rattle.sv_slots.specs.Known.{CameWith, IsSameSeat, table_of, view_of};

use crate::installs::make_current;
use crate::sweeps::retire;
use std::marker::Brand;
use std::sync::Wait;
use sv_borrows::{Held, Seat, Slot, Table};
use sv_dir::Dir;
use sv_memtable::MemCell;
use sv_model::{FamilyId, SvRef};
use sv_objects::Body;
use sv_rule::Writes;

// The cell is given with what lies in it; the books stand.
fn give_filled<J: Writes, D: Dir + Drop>(
    core: &Table<D>,
    seat: &mut Seat<D>,
    held: &Held,
    number: u8,
    slot: Slot,
)
    requires table { CameWith (table_of core.now) seat.old }
    requires picks { (J.cell ≡ number) × (number < 64) × (J.books ≡ held.now.books) × (J.task ≡ (view_of seat.old).known.task) }
    requires none { (J.desk ≡ desk_of (view_of seat.old)) × (J.more ≡ []) × (J.family ≡ 0) × (J.seen ≡ 0) }
    requires may { MayWriteCell (view_of seat.old) number held.now.books (view_of seat.old).known.task [] slot 0 0 }
    ensures same { IsSameSeat seat.old seat.new }
    ensures wrote { view_of seat.new ≡ wrote_cell (desk_of (view_of seat.old)) number held.now.books (view_of seat.old).known.task [] 0 0 (view_of seat.old) }
{
    core.write_cell::<J>(seat, number, slot, held);
}

/// The same, where the family's memtable is new: it takes this cell. Takes no memory.
pub fn install_filled<D: Dir + Drop, R: Wait>(
    rt: &R,
    core: &Table<D>,
    seat: &mut Seat<D>,
    held: &mut Held,
    lanes: u8,
    family: FamilyId,
    old: SvRef<Body>,
    number: u8,
    memtable: Box<MemCell>,
)
    requires table { CameWith (table_of core.now) seat.old }
    requires lanes { (lanes ≤ 32) × (0 < lanes) × (lanes ≡ (view_of seat.old).seat.lanes) }
    requires may { (number < 64) × MayInstall held.old.books family old.pack (Some number) (view_of seat.old) }
    requires memtable { memtable.value ≡ record { id = length held.old.books.memtables; rows = [] } }
    ensures same { IsSameSeat seat.old seat.new }
    ensures installs { Installs family held.old.books held.new.books (view_of seat.old) (view_of seat.new) }
    ensures spare { held.new.spare ≡ held.old.spare }
{
    let mut slot = core.take_cell(rt, seat, number);
    slot.memtable = Some(memtable);
    make_current::<Brand, D>(core, seat, held, family, held.state.current(family));
    give_filled::<Brand, D>(core, seat, held, number, slot);
    retire(rt, core, seat, held, lanes, family, old);
}
