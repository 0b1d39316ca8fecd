// A memtable that is open to writes.
ghost use Rattle.std.specs.Prelude.{◌≡◌, ◌<◌, ◌≤◌, ◌++◌, ◌∷◌, [], IfOk, OnOk, OnErr, length, take, option_map};
ghost use Rattle.std.specs.Option.{option_copied};
ghost use Rattle.sv_model.specs.Journal.{newest_op};
ghost use Rattle.sv_model.specs.Registers.{entry};
ghost use Rattle.sv_memtable.specs.Index.{IsIndexed, Notes, LeadsAsBefore};
ghost use Rattle.sv_memtable.specs.Freezing.{IsFrozenOf};

use crate::frozen::Frozen;
use crate::numbers::Numbers;
use std::alloc::Global;
use std::collections::BTreeMap;
use std::marker::Model;
use sv_model::{Key, MAX_ROWS, MemId, Numbered, Op, OutOfMemory, Row};

/// An open memtable: its rows in the order in which they were added, which numbers them from 1, beside an ordered map
/// from each key to the numbers of its rows. So a look-up is one search of the map, and one of the key's numbers where
/// only the first rows count.
#[derive(Drop)]
pub struct MemCell {
    alloc: Global,
    id: MemId,
    rows: Vec<Row>,
    index: BTreeMap<Key, Numbers>,
}

impl Model for MemCell {
    ghost use Rattle.sv_model.specs.Cells.{Cell};

    ghost Value = { Cell };

    ghost view = { λ c. record { id = c.id; rows = c.rows.items } };

    ghost use Rattle.sv_memtable.specs.Index.{IsIndexed};

    ghost invariant = { λ c. IsIndexed c.rows.items c.index };
}

/// Appends the number of a row of the key to the key's numbers. A refusal leaves the numbers as they were.
fn note(
    alloc: Global,
    index: &mut BTreeMap<Key, Numbers>,
    key: &Key,
    number: u32,
) -> Result<(), OutOfMemory>
    ensures ok { OnOk result (Notes index.old key.now number index.new) }
    ensures err { OnErr result (LeadsAsBefore index.old index.new) }
{
    match index.get_mut(key) {
        Some(numbers) => numbers.push(number),
        None => {
            index.insert(key.clone()?, Numbers::of(alloc, number))?;
            Ok(())
        }
    }
}

/// What the row of this number does.
fn op_of(rows: &[Row], number: u32) -> &Op
    requires from { 1 ≤ number }
    requires to { number ≤ length rows.now }
    ensures { option_map (λ r. r.op) (entry rows.now number) ≡ Some result.now }
{
    &rows[number as usize - 1].op
}

/// Copies of the rows with their numbers, by key and in one key the newest first.
fn numbered_rows(
    alloc: Global,
    rows: &[Row],
    index: &BTreeMap<Key, Numbers>,
) -> Result<Vec<Numbered>, OutOfMemory>
    requires { IsIndexed rows.now index.now }
    ensures { IfOk result (λ copies. IsFrozenOf rows.now copies.items) }
{
    let mut copies = Vec::with_capacity(alloc, rows.len())?;
    for numbers in index.values() {
        numbers.copy_rows(&mut copies, rows)?;
    }
    Ok(copies)
}

impl MemCell {
    /// A memtable without rows. Takes no memory.
    pub fn new(alloc: Global, id: MemId) -> MemCell
        ensures { result ≡ record { id = id; rows = [] } }
    {
        MemCell {
            alloc,
            id,
            rows: Vec::new(alloc),
            index: BTreeMap::new(alloc),
        }
    }

    /// Which memtable it is. Takes no memory.
    pub fn id(&self) -> MemId
        ensures { result ≡ self.now.id }
    {
        self.id
    }

    /// The number of its rows. Takes no memory.
    pub fn len(&self) -> u32
        ensures rows { result ≡ length self.now.rows }
        ensures few { result ≤ MAX_ROWS }
    {
        self.rows.len() as u32
    }

    /// Appends a row. A refusal leaves the memtable as it was.
    pub fn add(&mut self, key: &Key, op: &Op) -> Result<(), OutOfMemory>
        requires { length self.old.rows < MAX_ROWS }
        ensures ok { OnOk result (self.new ≡ record self.old { rows = self.old.rows ++ record { key = key.now; op = op.now } ∷ [] }) }
        ensures err { OnErr result (self.new ≡ self.old) }
    {
        self.rows.reserve(1)?;
        let row = Row {
            key: key.clone()?,
            op: op.clone()?,
        };
        let number = self.rows.len() as u32 + 1;
        note(self.alloc, &mut self.index, key, number)?;
        self.rows.push_reserved(row);
        Ok(())
    }

    /// What the newest row of the key does; none where there is no row of it. Takes no memory.
    pub fn find(&self, key: &Key) -> Option<&Op>
        ensures { option_copied result ≡ newest_op key.now self.now.rows }
    {
        match self.index.get(key) {
            None => None,
            Some(numbers) => Some(op_of(self.rows.as_slice(), numbers.newest())),
        }
    }

    /// What the newest row of the key among the first `upto` rows does; none where there is no row of it among them. By
    /// binary search in the rows of the key. Takes no memory.
    pub fn find_at(&self, key: &Key, upto: u32) -> Option<&Op>
        ensures { option_copied result ≡ newest_op key.now (take upto self.now.rows) }
    {
        match self.index.get(key) {
            None => None,
            Some(numbers) => match numbers.newest_upto(upto) {
                None => None,
                Some(number) => Some(op_of(self.rows.as_slice(), number)),
            },
        }
    }

    /// Every row so far, numbered from 1 in the order in which they were added: by key, and in one key the newest first.
    /// Copies the rows; the memtable stays open.
    pub fn freeze(&self) -> Result<Frozen, OutOfMemory>
        ensures { IfOk result (λ frozen. frozen ≡ self.now) }
    {
        let rows = numbered_rows(self.alloc, self.rows.as_slice(), &self.index)?;
        Ok(Frozen::of(self.id, rows))
    }
}
