// The opening of a database that is new.
ghost use Rattle.std.specs.Prelude.{IfErr, IfOk, None, Some, [], ◌<◌, ◌≡◌, ◌≤◌};
ghost use Rattle.sv_db.specs.Opening.{new_start};
ghost use Rattle.sv_model.specs.Openings.{opening_books};
ghost use Rattle.sv_model.specs.Steady.{Sound};
ghost use Rattle.sv_slots.specs.Known.{table_of};
ghost use Rattle.sv_slots.specs.Openings.{AreOpened, FirstCells};

use std::alloc::Global;
use sv_borrows::{Database, Folder, Held, Seat, Slot, Table};
use sv_dir::Dir;
use sv_memtable::MemCell;
use sv_model::{FileNumber, MAX_CELLS, MemId, OutOfMemory};
use sv_slots::{Core, CoreError};
use sv_state::State;

fn first_state(alloc: Global, next: FileNumber) -> Result<Held, OutOfMemory>
    requires { 1 ≤ next }
    ensures books { IfOk result (λ held. held.books ≡ opening_books next) }
    ensures sound { IfOk result (λ held. Sound held.books) }
{
    let state = Box::new(alloc, State::new(alloc, next)?)?;
    Ok(Held { state })
}

// The memtable of the first family, without rows.
fn first_slot(alloc: Global) -> Result<Slot, OutOfMemory>
    ensures { IfOk result (λ slot. slot ≡ Some (record { id = 1; rows = [] })) }
{
    let memtable = Box::new(alloc, MemCell::new(alloc, MemId(1)))?;
    Ok(Slot {
        memtable: Some(memtable),
    })
}

// It lies in the first cell. The others are vacant.
fn first_cells(alloc: Global) -> Result<Vec<Slot>, OutOfMemory>
    ensures { IfOk result (λ v. FirstCells (λ slot. slot) 1 v.items) }
{
    let mut cells = Vec::new(alloc);
    cells.push(first_slot(alloc)?)?;
    while cells.len() < MAX_CELLS {
        cells.push(Slot { memtable: None })?;
    }
    Ok(cells)
}

// The table of a database that is new, with the seats of its lanes. Where there is no memory the directory comes back as
// it was.
pub(crate) fn open<D: Dir + Drop>(
    alloc: Global,
    lanes: u8,
    next: FileNumber,
    dir: Box<D>,
) -> Result<(Table<D>, Vec<Seat<D>>), Box<D>>
    requires lanes { (0 < lanes) × (lanes ≤ 32) }
    requires next { 1 ≤ next }
    ensures opened { IfOk result (λ t. AreOpened (table_of t.0) lanes (new_start (D.files dir.value) (D.faults dir.value) next) t.1.items) }
    ensures err { IfErr result (λ back. back ≡ dir) }
{
    let Ok(state) = first_state(alloc, next) else {
        return Err(dir);
    };
    let Ok(cells) = first_cells(alloc) else {
        return Err(dir);
    };
    match Core::<Database<D>>::new(alloc, lanes, 1, state, Folder { dir }, cells) {
        Ok(opened) => Ok(opened),
        Err(CoreError { dir, .. }) => Err(dir.dir),
    }
}
