// Handing out Obsolete numbers and strays for removal, and taking them back.
ghost use Rattle.std.specs.Prelude.{◌≡◌, ◌<◌, ◌+◌, ◌-◌, ◌↔◌, ℕ, IfOk, OnErr, IsTrue, IsFalse};
ghost use Rattle.sv_model.specs.declared.records.FileStatus.TheVariants as status;
ghost use Rattle.sv_model.specs.Numbers.{AreInOrder, IsReady, IsRegistered, MarksOnly};
ghost use Rattle.sv_model.specs.Refusals.{Refuses, RefusesExactly};
ghost use Rattle.sv_files.specs.Calls.{IsFound, IsScanned, IsTaken, MayBeTaken, disabled, ungrabbed};

use super::FileBook;
use crate::grabs::{find_with_strays, grab_all};
use sv_model::{FileNumber, FileStatus, OutOfMemory, Refusal};

impl FileBook {
    /// The Obsolete numbers below the bound, ascending; nothing changes. Refused as `Disabled` exactly
    /// where a hold stands. Takes no memory where there is no such number.
    pub fn ready(&self) -> Result<Vec<FileNumber>, Refusal>
        ensures ready { IfOk result (λ found. AreInOrder (IsReady self.now) found.items) }
        ensures refused { Refuses (disabled self.now) result }
        ensures none { ((n : ℕ) → IsReady self.now n → ⊥) → RefusesExactly (disabled self.now) result }
    {
        self.check_holds()?;
        let found = self.numbers.obsolete_below(self.bound())?;
        Ok(found)
    }

    /// Hands out the Obsolete numbers below the bound, ascending: they are Grabbed, and one more job is
    /// under way. Refused as `Disabled` exactly where a hold stands; a refusal leaves the book as it was.
    /// Takes no memory where there is no such number.
    pub fn find_obsolete(&mut self) -> Result<Vec<FileNumber>, Refusal>
        requires { self.old.jobs < 32 }
        ensures found { IfOk result (λ found. IsFound self.old self.new found.items) }
        ensures refused { Refuses (disabled self.old) result }
        ensures none { ((n : ℕ) → IsReady self.old n → ⊥) → RefusesExactly (disabled self.old) result }
        ensures kept { OnErr result (self.new ≡ self.old) }
    {
        let found = self.ready()?;
        grab_all(&mut self.numbers, found.as_slice());
        self.jobs += 1;
        Ok(found)
    }

    /// Hands out the Obsolete numbers below the bound and the strays of a listing, ascending: they are
    /// Grabbed, and one more job is under way. A stray is a listed number that is not registered, below the
    /// bound and below the next number; it is registered from then on. Refused as `Disabled` exactly where a
    /// hold stands; a refusal leaves the book as it was.
    pub fn scan(&mut self, listed: &[FileNumber]) -> Result<Vec<FileNumber>, Refusal>
        requires { self.old.jobs < 32 }
        ensures found { IfOk result
            (λ found. IsScanned self.old self.new listed.now found.items) }
        ensures refused { Refuses (disabled self.old) result }
        ensures kept { OnErr result (self.new ≡ self.old) }
    {
        self.check_holds()?;
        let bound = self.bound();
        let found = find_with_strays(&mut self.numbers, listed, bound, self.next)?;
        grab_all(&mut self.numbers, found.as_slice());
        self.jobs += 1;
        Ok(found)
    }

    /// Takes one number for removal where it is Obsolete and below the bound and no hold stands: it is
    /// Grabbed, and one more job is under way. Answers whether it was taken; else nothing changes. Takes no
    /// memory.
    pub fn take(&mut self, number: FileNumber) -> bool
        requires { self.old.jobs < 32 }
        ensures exactly { IsTrue result ↔ MayBeTaken self.old number }
        ensures taken { IsTrue result → IsTaken number self.old self.new }
        ensures kept { IsFalse result → self.new ≡ self.old }
    {
        if self.holds() > 0 || number.0 >= self.bound() || !self.numbers.is_obsolete(number.0) {
            return false;
        }
        let _ = self.numbers.mark(number.0, FileStatus::Grabbed);
        self.jobs += 1;
        true
    }

    /// Takes back a Grabbed number: it is Gone where its file is, else Obsolete again. Takes no memory.
    pub fn ungrab(&mut self, number: FileNumber, gone: bool)
        requires { IsRegistered self.old.numbers number status.Grabbed }
        ensures { MarksOnly number status.Grabbed (ungrabbed gone) self.old self.new }
    {
        let _ = self.numbers.mark(number.0, ungrabbed(gone));
    }

    /// Ends a job. Takes no memory.
    pub fn end_job(&mut self)
        requires { 0 < self.old.jobs }
        ensures { self.new ≡ record self.old { jobs = self.old.jobs - 1 } }
    {
        self.jobs -= 1;
    }

    /// The Obsolete numbers, ascending, whatever is captured and held; nothing changes. Takes no memory
    /// where there are none.
    pub fn obsolete(&self) -> Result<Vec<FileNumber>, OutOfMemory>
        ensures left { IfOk result
            (λ left. AreInOrder (λ n. IsRegistered self.now.numbers n status.Obsolete) left.items) }
        ensures none { OnErr result ((n : ℕ) × IsRegistered self.now.numbers n status.Obsolete) }
    {
        self.numbers.obsolete_below(u64::MAX)
    }

    // Refused where a hold stands.
    fn check_holds(&self) -> Result<(), Refusal>
        ensures { RefusesExactly (disabled self.now) result }
    {
        let held = self.holds();
        if held > 0 {
            return Err(Refusal::Disabled {
                count: u64::from(held),
            });
        }
        Ok(())
    }
}

fn ungrabbed(gone: bool) -> FileStatus
    ensures { result ≡ ungrabbed gone }
{
    if gone {
        FileStatus::Gone
    } else {
        FileStatus::Obsolete
    }
}
