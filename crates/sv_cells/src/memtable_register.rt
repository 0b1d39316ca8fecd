// The memtables: every one ever made, and by cell the one that is there and not Gone.
ghost use Rattle.std.specs.Prelude.{◌≡◌, ◌<◌, ◌∷◌, ◌++◌, [], Some, None, cond, not, length, count_by, IfOk, OnErr};
ghost use Rattle.std.specs.Option.{option_copied};
ghost use Rattle.sv_model.specs.declared.records.Memtable.{Memtable};
ghost use Rattle.sv_model.specs.declared.refusals.Refusal.TheVariants.{TooManyMemtables};
ghost use Rattle.sv_model.specs.Refusals.{Refuses};
ghost use Rattle.sv_model.specs.Named.{IsLiveMemtable};
ghost use Rattle.sv_model.specs.Registers.{entry};
ghost use Rattle.sv_cells.specs.Calls.{HaveCells, IsEnded, IsJustMade, IsMade, memtables_refusal};

use std::alloc::Global;
use std::marker::Model;
use sv_model::{FamilyId, MAX_CELLS, MemId, Memtable, PlacedRegister, Refusal};

/// The greatest number of memtables ever made.
pub const MAX_MEMTABLES: usize = 4_294_967_295;

/// Every memtable ever made, by its id, which is never used again. Contracts see the list of their
/// records.
#[derive(Drop)]
pub struct MemtableRegister {
    memtables: PlacedRegister<Memtable, MAX_CELLS>,
}

impl Model for MemtableRegister {
    ghost use Rattle.std.specs.Prelude.{List};
    ghost use Rattle.sv_model.specs.declared.records.Memtable.{Memtable};

    ghost Value = { List Memtable };

    ghost view = { λ s. s.memtables };
}

impl MemtableRegister {
    /// No memtable. Takes no memory.
    pub fn new(alloc: Global) -> MemtableRegister
        ensures { result ≡ [] }
    {
        MemtableRegister {
            memtables: PlacedRegister::new(alloc),
        }
    }

    /// The record of the memtable with this id; none exactly where it was never made.
    pub fn record(&self, id: MemId) -> Option<&Memtable>
        ensures { option_copied result ≡ entry self.now id }
    {
        self.memtables.record(id.0)
    }

    /// How many memtables were ever made.
    pub fn made(&self) -> u64
        ensures { result ≡ length self.now }
    {
        self.memtables.made()
    }

    /// How many of them are Gone. Looks at the cells alone.
    pub fn gone(&self) -> u64
        ensures { result ≡ count_by (λ m. not m.live) self.now }
    {
        self.memtables.gone()
    }

    /// Whether a make would be refused: no cell is free. Looks at the cells alone.
    pub fn is_full(&self) -> bool
        ensures { memtables_refusal self.now ≡ cond result (Some TooManyMemtables) None }
    {
        self.memtables.room().is_none()
    }

    /// Makes a memtable of this family that begins after so many of its writes, under the next id and at
    /// the least free cell. Refused as `TooManyMemtables` where 64 are not Gone; a refusal leaves the
    /// memtables as they were.
    pub fn make(&mut self, family: FamilyId, first: u64) -> Result<MemId, Refusal>
        requires { length self.old < MAX_MEMTABLES }
        ensures made { IfOk result (λ id. IsMade self.old family first self.new id) }
        ensures refused { Refuses (memtables_refusal self.old) result }
        ensures kept { OnErr result (self.new ≡ self.old) }
        ensures cells { HaveCells self.new }
    {
        let Some(cell) = self.memtables.room() else {
            return Err(Refusal::TooManyMemtables);
        };
        let memtable = Memtable {
            family,
            first,
            cell: cell as u8,
            live: true,
        };
        Ok(MemId(self.memtables.add(memtable)?))
    }

    /// Ends a memtable: it is Gone and its cell free. Takes no memory.
    pub fn end(&mut self, id: MemId)
        requires { IsLiveMemtable self.old id }
        ensures ended { (m : Memtable) × IsEnded self.old id m self.new }
        ensures cells { HaveCells self.new }
    {
        self.memtables.end(id.0);
    }

    /// Undoes the make just done: the memtable made last, which is not Gone, was never made, and its cell
    /// is free. Takes no memory.
    pub fn take_back(&mut self)
        requires { IsJustMade self.old }
        ensures undone { (m : Memtable) × (self.old ≡ self.new ++ m ∷ []) }
        ensures cells { HaveCells self.new }
    {
        self.memtables.take_back();
    }
}
