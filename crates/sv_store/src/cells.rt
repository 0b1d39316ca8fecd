// The cells, each vacant or with an open memtable.
ghost use Rattle.std.specs.Prelude.{◌≡◌, ◌<◌, ◌++◌, ◌∷◌, [], IfOk, OnOk, OnErr, None, Some, replicate, slice_get, slice_set, length};
ghost use Rattle.sv_model.specs.Cells.{Cell};
ghost use Rattle.sv_model.specs.Lists.{Every};
ghost use Rattle.sv_model.specs.declared.limits.TheConstants.{MAX_ROWS};
ghost use Rattle.sv_store.specs.Cells.{Vacated, with_row};

use std::alloc::Global;
use std::marker::Model;
use sv_memtable::{Frozen, MemCell};
use sv_model::{Key, MAX_CELLS, Op, OutOfMemory};

/// The 64 cells. Contracts see them as a list, with none where a cell is vacant.
#[derive(Drop)]
pub(crate) struct Cells {
    cells: Vec<Option<MemCell>>,
}

impl Model for Cells {
    ghost use Rattle.std.specs.Prelude.{◌≡◌, List, Option, length};
    ghost use Rattle.sv_model.specs.Cells.{Cell};

    ghost Value = { List (Option Cell) };

    ghost view = { λ c. c.cells.items };

    ghost invariant = { λ c. length c.cells.items ≡ 64 };
}

impl Cells {
    /// All vacant.
    pub fn new(alloc: Global) -> Result<Cells, OutOfMemory>
        ensures { IfOk result (λ cells. cells ≡ replicate 64 None) }
    {
        let mut cells = Vec::with_capacity(alloc, MAX_CELLS)?;
        for done in 0..MAX_CELLS {
            cells.push(None)?;
        }
        Ok(Cells { cells })
    }

    /// The memtable in the cell. Takes no memory.
    pub fn memtable(&self, cell: u8) -> &MemCell
        requires { (x : Cell) × (slice_get self.now cell ≡ Some (Some x)) }
        ensures { (x : Cell) → slice_get self.now cell ≡ Some (Some x) → result.now ≡ x }
    {
        let Some(memtable) = &self.cells[cell as usize] else {
            unreachable!();
        };
        memtable
    }

    /// The memtable takes the cell. Takes no memory.
    pub fn put(&mut self, cell: u8, memtable: MemCell)
        requires { cell < 64 }
        ensures { self.new ≡ slice_set self.old cell (Some memtable) }
    {
        self.cells[cell as usize] = Some(memtable);
    }

    /// These cells are vacant. Takes no memory.
    pub fn vacate(&mut self, gone: &[u8])
        requires { Every (λ cell. cell < 64) gone.now }
        ensures { Vacated gone.now self.old self.new }
    {
        for cell in gone {
            self.empty(*cell);
        }
    }

    fn empty(&mut self, cell: u8)
        requires { cell < 64 }
        ensures emptied { self.new ≡ slice_set self.old cell None }
        ensures many { length self.old ≡ 64 }
    {
        self.cells[cell as usize] = None;
    }

    /// One more row in the memtable of the cell. A refusal leaves the cells as they were.
    pub fn add(&mut self, cell: u8, key: &Key, op: &Op) -> Result<(), OutOfMemory>
        requires { (x : Cell) × (slice_get self.old cell ≡ Some (Some x)) × (length x.rows < MAX_ROWS) }
        ensures added { (x : Cell) → slice_get self.old cell ≡ Some (Some x) → OnOk result (self.new ≡ slice_set self.old cell (Some (with_row x key.now op.now))) }
        ensures kept { OnErr result (self.new ≡ self.old) }
    {
        let Some(memtable) = &mut self.cells[cell as usize] else {
            unreachable!();
        };
        memtable.add(key, op)
    }
}
