// The accepted writes, and how many of them are each family's.
ghost use Rattle.std.specs.Prelude.{◌≡◌, ◌+◌, ◌<◌, ◌≤◌, ◌∷◌, ◌++◌, [], OnOk, OnErr, length, cond};
ghost use Rattle.sv_model.specs.Journal.{of_family};
ghost use Rattle.sv_model.specs.declared.refusals.Refusal.TheVariants.{JournalFull};
ghost use Rattle.sv_journal.specs.Calls.{journal_refusal};

use crate::live::LiveSnapshot;
use std::alloc::Global;
use std::marker::Model;
use sv_model::{FamilyId, MAX_WRITES, OutOfMemory, Snapshot, Write};

/// How many families there are at most.
pub const FAMILIES: usize = 16;

/// The accepted writes in their order, and the snapshots ever made. Contracts see both lists, and beside them for how
/// many more writes there is room.
#[derive(Drop)]
pub struct Journal {
    pub(crate) writes: Vec<Write>,
    /// By family, how many of the writes are its.
    pub(crate) counts: [u64; FAMILIES],
    pub(crate) snapshots: Vec<Snapshot>,
    /// The Live ones, in the order in which they were taken.
    pub(crate) live: Vec<LiveSnapshot>,
}

impl Model for Journal {
    ghost use Rattle.std.specs.Prelude.{◌-◌, vec_len, vec_capacity};
    ghost use Rattle.sv_journal.specs.Seen.{JournalSeen};

    ghost Value = { JournalSeen };

    ghost use Rattle.sv_journal.specs.Kept.{IsJournal};

    ghost view = { λ j. record { writes = j.writes.items; snapshots = j.snapshots.items; spare = vec_capacity j.writes - vec_len j.writes } };

    ghost invariant = { λ j. IsJournal j.writes.items j.counts j.snapshots.items j.live.items };
}

impl Journal {
    /// No write and no snapshot. Takes no memory.
    pub fn new(alloc: Global) -> Journal
        ensures writes { result.writes ≡ [] }
        ensures snapshots { result.snapshots ≡ [] }
    {
        Journal {
            writes: Vec::new(alloc),
            counts: [0; FAMILIES],
            snapshots: Vec::new(alloc),
            live: Vec::new(alloc),
        }
    }

    /// How many writes were accepted. Takes no memory.
    pub fn len(&self) -> u64
        ensures { result ≡ length self.now.writes }
    {
        self.writes.len() as u64
    }

    /// Whether the journal takes no more writes. Takes no memory.
    pub fn is_full(&self) -> bool
        ensures { journal_refusal self.now.writes ≡ cond result (Some JournalFull) None }
    {
        self.writes.len() >= MAX_WRITES
    }

    /// How many of the writes are the family's. Takes no memory.
    pub fn written(&self, family: FamilyId) -> u64
        requires { family < FAMILIES }
        ensures { result ≡ length (of_family family self.now.writes) }
    {
        self.counts[family.0 as usize]
    }

    /// Makes room for one more write, where there is none.
    pub fn reserve(&mut self) -> Result<(), OutOfMemory>
        ensures writes { self.new.writes ≡ self.old.writes }
        ensures snapshots { self.new.snapshots ≡ self.old.snapshots }
        ensures room { OnOk result (0 < self.new.spare) }
        ensures more { self.old.spare ≤ self.new.spare }
        ensures kept { OnErr result (self.new ≡ self.old) }
    {
        self.writes.reserve(1)?;
        Ok(())
    }

    /// Appends the write, for which there is room. Gives its number in its family. Takes no memory.
    pub fn push(&mut self, write: Write) -> u64
        requires room { 0 < self.old.spare }
        requires few { length self.old.writes < MAX_WRITES }
        requires family { write.family < FAMILIES }
        ensures writes { self.new.writes ≡ self.old.writes ++ write ∷ [] }
        ensures number { result ≡ length (of_family write.family self.new.writes) }
        ensures snapshots { self.new.snapshots ≡ self.old.snapshots }
        ensures spare { self.new.spare + 1 ≡ self.old.spare }
    {
        let family = write.family.0 as usize;
        let number = self.counts[family] + 1;
        self.counts[family] = number;
        self.writes.push_reserved(write);
        number
    }
}
