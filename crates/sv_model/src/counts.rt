// How many live holders name each object.
ghost use Rattle.std.specs.Prelude.{◌≡◌, ℕ, ◌+◌, ◌<◌, ◌^◌, OnOk, OnErr, IsOk};

use crate::faults::OutOfMemory;
use std::alloc::Global;
use std::collections::BTreeMap;

/// How many live holders name each object, by the object's number. It has an entry for each object that is
/// named, and none for the others.
#[derive(Drop)]
pub struct Counts {
    counts: BTreeMap<u64, u64>,
}

impl Counts {
    ghost use Rattle.sv_model.specs.Lists.{same};
    ghost use Rattle.sv_model.specs.Counts.{count_of};

    /// Nothing is named. Takes no memory.
    pub fn new(alloc: Global) -> Counts
        ensures { (n : ℕ) → count_of result n ≡ 0 }
    {
        Counts {
            counts: BTreeMap::new(alloc),
        }
    }

    /// How many holders name it.
    pub fn count(&self, number: u64) -> u64
        ensures { result ≡ count_of self.now number }
    {
        self.counts.get(&number).copied().unwrap_or(0)
    }

    /// One more holder names it. Takes memory only for what nothing names yet; a refusal changes no count.
    pub fn up(&mut self, number: u64) -> Result<(), OutOfMemory>
        requires { count_of self.old number + 1 < 2 ^ 64 }
        ensures ok { OnOk result ((n : ℕ) → count_of self.new n ≡ count_of self.old n + same n number) }
        ensures err { OnErr result ((n : ℕ) → count_of self.new n ≡ count_of self.old n) }
        ensures named { 0 < count_of self.old number → IsOk result }
    {
        let count = self.count(number);
        match self.counts.insert(number, count + 1) {
            Ok(_) => Ok(()),
            Err(_) => Err(OutOfMemory),
        }
    }

    /// One holder fewer names it. Takes no memory.
    pub fn down(&mut self, number: u64)
        requires { 0 < count_of self.old number }
        ensures { (n : ℕ) → count_of self.old n ≡ count_of self.new n + same n number }
    {
        let count = self.count(number);
        if count == 1 {
            self.counts.remove(&number);
            return;
        }
        match self.counts.insert(number, count - 1) {
            Ok(_) => {}
            Err(_) => unreachable!(),
        }
    }
}
