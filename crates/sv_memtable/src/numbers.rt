// The numbers of the rows of one key.
ghost use Rattle.std.specs.Prelude.{◌≡◌, true, false, ◌≤◌, ◌++◌, ◌∷◌, [], ℕ, List, reverse, find, nat_le, length, IfOk, OnOk, OnErr};
ghost use Rattle.std.specs.List.{All, filter_map};
ghost use Rattle.std.specs.List.Sorted.{IsNonDecreasing, IsPartitionPoint};
ghost use Rattle.sv_memtable.specs.Index.{numbered_row};

use std::alloc::Global;
use std::marker::Model;
use sv_model::{Numbered, OutOfMemory, Row};

/// The numbers of the rows of one key in the order in which they were added, seen by contracts as their list. The
/// newest lies in place, so a key with one row takes no memory here.
#[derive(Drop)]
pub(crate) struct Numbers {
    newest: u32,
    older: Vec<u32>,
}

impl Model for Numbers {
    ghost use Rattle.std.specs.Prelude.{◌++◌, ◌∷◌, [], ℕ, List};

    ghost Value = { List ℕ };

    ghost view = { λ n. n.older.items ++ n.newest ∷ [] };
}

/// Appends a copy of the row of this number, with its number.
fn copy_row(copies: &mut Vec<Numbered>, rows: &[Row], number: u32) -> Result<(), OutOfMemory>
    requires from { 1 ≤ number }
    requires to { number ≤ length rows.now }
    ensures { IfOk result (λ _. copies.new.items ≡ copies.old.items ++ filter_map (numbered_row rows.now) (number ∷ [])) }
{
    let row = rows[number as usize - 1].clone()?;
    copies.push(Numbered {
        number: u64::from(number),
        row,
    })?;
    Ok(())
}

/// How many of the numbers, which ascend, are at most this. By binary search.
fn count_upto(numbers: &[u32], upto: u32) -> usize
    requires { IsNonDecreasing numbers.now }
    ensures bound { result ≤ length numbers.now }
    ensures parted { IsPartitionPoint (λ n. nat_le n upto ≡ true) (λ n. nat_le n upto ≡ false) numbers.now result }
{
    numbers.partition_point(|number| *number <= upto)
}

impl Numbers {
    /// This number alone. Takes no memory.
    pub(crate) fn of(alloc: Global, number: u32) -> Numbers
        ensures { result ≡ number ∷ [] }
    {
        Numbers {
            newest: number,
            older: Vec::new(alloc),
        }
    }

    /// Appends a number. A refusal leaves them as they were.
    pub(crate) fn push(&mut self, number: u32) -> Result<(), OutOfMemory>
        ensures ok { OnOk result (self.new ≡ self.old ++ number ∷ []) }
        ensures err { OnErr result (self.new ≡ self.old) }
    {
        self.older.push(self.newest)?;
        self.newest = number;
        Ok(())
    }

    /// The last. Takes no memory.
    pub(crate) fn newest(&self) -> u32
        ensures { (older : List ℕ) × (self.now ≡ older ++ result ∷ []) }
    {
        self.newest
    }

    /// The last that is at most this, by binary search. Takes no memory.
    pub(crate) fn newest_upto(&self, upto: u32) -> Option<u32>
        requires { IsNonDecreasing self.now }
        ensures { result ≡ find (λ n. nat_le n upto) (reverse self.now) }
    {
        if self.newest <= upto {
            return Some(self.newest);
        }
        let count = count_upto(self.older.as_slice(), upto);
        if count == 0 {
            return None;
        }
        Some(self.older[count - 1])
    }

    /// Appends copies of the rows of these numbers, with their numbers, the last first.
    pub(crate) fn copy_rows(
        &self,
        copies: &mut Vec<Numbered>,
        rows: &[Row],
    ) -> Result<(), OutOfMemory>
        requires { All (λ n. (1 ≤ n) × (n ≤ length rows.now)) self.now }
        ensures { IfOk result (λ _. copies.new.items ≡ copies.old.items ++ filter_map (numbered_row rows.now) (reverse self.now)) }
    {
        copy_row(copies, rows, self.newest)?;
        for number in self.older.iter().rev() {
            copy_row(copies, rows, *number)?;
        }
        Ok(())
    }
}
