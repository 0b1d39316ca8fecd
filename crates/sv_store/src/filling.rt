// The memtable that an install makes takes its cell.
ghost use Rattle.std.specs.Prelude.{◌≡◌, ◌<◌, ℕ, Some};
ghost use Rattle.sv_store.specs.Cells.{filled};

use crate::cells::Cells;
use std::alloc::Global;
use sv_memtable::MemCell;
use sv_model::MemId;

// The new memtable, if there is one, is in its cell, without rows. Takes no memory.
pub(crate) fn fill(alloc: Global, cells: &mut Cells, vacant: Option<(u8, MemId)>)
    requires { (cell mem : ℕ) → vacant ≡ Some (cell, mem) → cell < 64 }
    ensures { cells.new ≡ filled cells.old vacant }
{
    let Some((cell, mem)) = vacant else {
        return;
    };
    cells.put(cell, MemCell::new(alloc, mem));
}

// The cell of a new memtable.
pub(crate) fn cell_of(vacant: &Option<(u8, MemId)>) -> u8
    requires { (cell : ℕ) × (mem : ℕ) × (vacant.now ≡ Some (cell, mem)) }
    ensures { (cell mem : ℕ) → vacant.now ≡ Some (cell, mem) → result ≡ cell }
{
    let Some(pair) = vacant else {
        unreachable!();
    };
    pair.0
}
