// Writes, and the newest of a key.
ghost use Rattle.std.specs.Prelude.{◌≡◌, reverse, find};
ghost use Rattle.std.specs.Option.{option_copied};
ghost use Rattle.sv_model.specs.Journal.{is_of, is_delete};

use crate::ids::{FamilyId, MemId};
use crate::keys::Key;
use crate::values::Value;
use std::alloc::AllocError;

/// What a write does to its key.
#[derive(Drop, Debug)]
pub enum Op {
    Put(Value),
    Delete,
}

impl Op {
    /// Whether it leaves no value. Takes no memory.
    pub fn is_delete(&self) -> bool
        ensures { result ≡ is_delete self.now }
    {
        match self {
            Op::Put(_) => false,
            Op::Delete => true,
        }
    }
}

impl Clone for Op {
    ghost is_clone = { λ op copy. copy ≡ op };

    fn clone(&self) -> Result<Op, AllocError> {
        match self {
            Op::Put(value) => Ok(Op::Put(value.clone()?)),
            Op::Delete => Ok(Op::Delete),
        }
    }
}

/// A row of a memtable or of a table.
#[derive(Drop, Debug)]
pub struct Row {
    pub key: Key,
    pub op: Op,
}

impl Clone for Row {
    ghost is_clone = { λ row copy. copy ≡ row };

    fn clone(&self) -> Result<Row, AllocError> {
        let key = self.key.clone()?;
        let op = self.op.clone()?;
        Ok(Row { key, op })
    }
}

/// A row of a table. It is the newest of its key in an interval of the table's writes, which ends at write `end`.
#[derive(Drop, Debug)]
pub struct Kept {
    pub end: u64,
    pub row: Row,
}

impl Clone for Kept {
    ghost is_clone = { λ kept copy. copy ≡ kept };

    fn clone(&self) -> Result<Kept, AllocError> {
        let row = self.row.clone()?;
        Ok(Kept { end: self.end, row })
    }
}

/// A row with the number of its write, from 1.
#[derive(Drop, Debug)]
pub struct Numbered {
    pub number: u64,
    pub row: Row,
}

impl Clone for Numbered {
    ghost is_clone = { λ numbered copy. copy ≡ numbered };

    fn clone(&self) -> Result<Numbered, AllocError> {
        let row = self.row.clone()?;
        Ok(Numbered {
            number: self.number,
            row,
        })
    }
}

/// An accepted write, with the memtable that bears it and the lane that made it.
#[derive(Drop, Debug)]
pub struct Write {
    pub family: FamilyId,
    pub key: Key,
    pub op: Op,
    pub mem: MemId,
    pub lane: u8,
}

/// The last write of that family and key. Takes no memory.
pub fn newest<'a>(writes: &'a [Write], family: FamilyId, key: &Key) -> Option<&'a Write>
    ensures { option_copied result ≡ find (is_of family key.now) (reverse writes.now) }
{
    writes
        .iter()
        .rev()
        .find(|write| write.family == family && *key == write.key)
}
