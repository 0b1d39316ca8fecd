// The cleanup of a SuperVersion whose last reference is gone, under the DB lock.
ghost use Rattle.std.specs.Prelude.{[], ◌<◌, ◌≡◌};
ghost use Rattle.sv_borrows.specs.Desks.{GoesOn, IsAtDesk, IsCleanedUp, MayGo, Vacates, due_at, owed_of};
ghost use Rattle.sv_model.specs.Lists.{Every, In};
ghost use Rattle.sv_rule.specs.Blanks.{desk_of};
ghost use Rattle.sv_rule.specs.Held.{Free};
ghost use Rattle.sv_rule.specs.ReferencePlays.{MaySettle, settled};
ghost use Rattle.sv_slots.specs.Known.{CameWith, IsSameSeat, table_of, view_of};

use crate::parts::{Held, Seat, Table};
use arrayvec::ArrayVec;
use std::marker::Brand;
use std::sync::Wait;
use sv_dir::Dir;
use sv_slots::{Owed, Settling, Sub};

// The cell of a memtable that is Gone becomes vacant.
fn vacate<D: Dir + Drop, R: Wait>(
    rt: &R,
    core: &Table<D>,
    seat: &mut Seat<D>,
    held: &Held,
    number: u8,
)
    requires table { CameWith (table_of core.now) seat.old }
    requires desk { IsAtDesk held.now.books (due_at (view_of seat.old)) (view_of seat.old) }
    requires free { (number < 64) × Free held.now.books.memtables number }
    ensures same { IsSameSeat seat.old seat.new }
    ensures vacated { Vacates held.now.books number (view_of seat.old) (view_of seat.new) }
{
    let mut slot = core.take_cell(rt, seat, number);
    slot.memtable = None;
    core.write_cell::<Brand>(seat, number, slot, held);
}

// So do these cells, which are all that are due.
fn vacate_all<D: Dir + Drop, R: Wait>(
    rt: &R,
    core: &Table<D>,
    seat: &mut Seat<D>,
    held: &Held,
    mut cells: ArrayVec<u8, 64>,
)
    requires table { CameWith (table_of core.now) seat.old }
    requires desk { IsAtDesk held.now.books (due_at (view_of seat.old)) (view_of seat.old) }
    requires free { Every (λ c. (c < 64) × Free held.now.books.memtables c) cells.items }
    requires due { Every (λ c. In c cells.items) (due_at (view_of seat.old)) }
    ensures same { IsSameSeat seat.old seat.new }
    ensures vacated { GoesOn held.now.books [] (view_of seat.old) (view_of seat.new) }
{
    while let Some(number) = cells.pop() {
        vacate(rt, core, seat, held, number);
    }
}

// What was cleaned up has no reference word any more, and these cells are due.
fn settle_word<J: Settling, D: Dir + Drop>(
    core: &Table<D>,
    seat: &mut Seat<D>,
    held: &Held,
    owed: Owed,
    _cells: &ArrayVec<u8, 64>,
)
    requires table { CameWith (table_of core.now) seat.old }
    requires picks { (J.cells ≡ _cells.now.items) × (J.task ≡ (view_of seat.old).known.task) }
    requires may { MaySettle (view_of seat.old) owed.pack held.now.books J.task J.cells }
    ensures same { IsSameSeat seat.old seat.new }
    ensures settled { view_of seat.new ≡ settled owed.pack held.now.books J.task J.cells (desk_of (view_of seat.old)) (view_of seat.old) }
{
    core.settle::<J>(seat, held, owed);
}

/// Where the drop of a reference left none of its SuperVersion, this is Gone with all that it alone named, and the cells
/// of the memtables that went are vacant. The lane has the DB lock. Takes no memory.
pub fn clean<D: Dir + Drop, R: Wait>(
    rt: &R,
    core: &Table<D>,
    seat: &mut Seat<D>,
    held: &mut Held,
    left: Sub,
)
    requires table { CameWith (table_of core.now) seat.old }
    requires desk { IsAtDesk held.old.books [] (view_of seat.old) }
    requires owed { ((view_of seat.old).owes ≡ owed_of left) × MayGo held.old.books left }
    ensures same { IsSameSeat seat.old seat.new }
    ensures cleaned { IsCleanedUp held.old.books held.new.books (view_of seat.old) (view_of seat.new) }
    ensures spare { held.new.spare ≡ held.old.spare }
{
    let Sub::Last(owed) = left else {
        return;
    };
    let cells = held.state.cleanup(owed.pack());
    settle_word::<Brand, D>(core, seat, held, owed, &cells);
    vacate_all(rt, core, seat, held, cells);
}
