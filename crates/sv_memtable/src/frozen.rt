// A memtable that takes no more writes.
ghost use Rattle.std.specs.Prelude.{◌≡◌, take};
ghost use Rattle.std.specs.Option.{option_copied};
ghost use Rattle.sv_model.specs.Journal.{newest_op};
ghost use Rattle.sv_memtable.specs.Freezing.{IsFrozenOf, added_of};

use std::marker::Model;
use sv_model::{Key, MemId, Numbered, Op, find_upto};

/// A memtable that takes no more writes, seen by contracts as the open memtable that it is made of: every row with its
/// number, by key, and in one key the newest first.
#[derive(Drop)]
pub struct Frozen {
    id: MemId,
    rows: Vec<Numbered>,
}

impl Model for Frozen {
    ghost use Rattle.sv_model.specs.Cells.{Cell};

    ghost Value = { Cell };

    ghost use Rattle.sv_memtable.specs.Freezing.{IsFrozenOf, added_of};

    ghost view = { λ f. record { id = f.id; rows = added_of f.rows.items } };

    ghost invariant = { λ f. IsFrozenOf (added_of f.rows.items) f.rows.items };
}

impl Frozen {
    /// A frozen memtable of these rows. Takes no memory.
    pub(crate) fn of(id: MemId, rows: Vec<Numbered>) -> Frozen
        requires { IsFrozenOf (added_of rows.items) rows.items }
        ensures { result ≡ record { id = id; rows = added_of rows.items } }
    {
        Frozen { id, rows }
    }

    /// Which memtable it is. Takes no memory.
    pub fn id(&self) -> MemId
        ensures { result ≡ self.now.id }
    {
        self.id
    }

    /// Every row, numbered from 1 in the order in which they were added: by key, and in one key the newest first.
    /// Takes no memory.
    pub fn rows(&self) -> &[Numbered]
        ensures { IsFrozenOf self.now.rows result.now }
    {
        self.rows.as_slice()
    }

    /// What the newest row of the key does; none where there is no row of it. By binary search. Takes no memory.
    pub fn find(&self, key: &Key) -> Option<&Op>
        ensures { option_copied result ≡ newest_op key.now self.now.rows }
    {
        // No row has a number above their count.
        match find_upto(self.rows.as_slice(), key, self.rows.len() as u64) {
            None => None,
            Some(numbered) => Some(&numbered.row.op),
        }
    }

    /// What the newest row of the key among the first `upto` rows does; none where there is no row of it among them. By
    /// binary search. Takes no memory.
    pub fn find_at(&self, key: &Key, upto: u32) -> Option<&Op>
        ensures { option_copied result ≡ newest_op key.now (take upto self.now.rows) }
    {
        match find_upto(self.rows.as_slice(), key, u64::from(upto)) {
            None => None,
            Some(numbered) => Some(&numbered.row.op),
        }
    }
}
