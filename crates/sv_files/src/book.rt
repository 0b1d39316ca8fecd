// The book of file numbers.
ghost use Rattle.std.specs.Prelude.{◌≡◌, ◌≤◌, ◌<◌, [], Some, None, IfOk, OnErr, MatchOption, slice_get, map, if◌then◌else◌};
ghost use Rattle.sv_model.specs.declared.records.FileStatus.TheVariants as status;
ghost use Rattle.sv_model.specs.declared.refusals.Refusal.TheVariants.{RegisterFull};
ghost use Rattle.sv_model.specs.Numbers.{FilesStand, IsRegistered, MarksOnly, captures, least_captured, registered};
ghost use Rattle.sv_model.specs.Refusals.{Refuses};
ghost use Rattle.sv_files.specs.Calls.{AreNamed, Settles, capture_refusal, captured_for, live_file, opened, settled_status};

mod counts;
mod finding;
mod holds;

use crate::numbers::Numbers;
use crate::settled::{Settled, status_of};
use std::alloc::Global;
use std::marker::Model;
use sv_model::{FamilyId, FileNumber, FileStatus, MAX_CAPTURED, OutOfMemory, Refusal};

const FAMILIES: usize = 16;

const LANES: usize = 32;

/// Every file number ever registered, with its status; the number that each family's flush or compaction
/// under way has captured; the holds of each lane; and how many purges and scans are under way. Contracts
/// see the register.
#[derive(Drop)]
pub struct FileBook {
    numbers: Numbers,
    captured: [Option<FileNumber>; FAMILIES],
    holds: [u8; LANES],
    jobs: u32,
    /// How many numbers were ever captured.
    made: usize,
    next: u64,
}

impl Model for FileBook {
    ghost use Rattle.sv_model.specs.Books.{FileRegister};
    ghost use Rattle.sv_files.specs.Kept.{IsFileBook};

    ghost Value = { FileRegister };

    ghost view = { λ b. record {
      numbers = b.numbers;
      captured = b.captured;
      holds = b.holds;
      jobs = b.jobs;
      next = b.next;
    } };

    ghost invariant = { λ b. IsFileBook (record {
      numbers = b.numbers;
      captured = b.captured;
      holds = b.holds;
      jobs = b.jobs;
      next = b.next;
    }) b.made };
}

impl FileBook {
    /// No number registered. Takes no memory.
    pub fn new(alloc: Global, next: FileNumber) -> FileBook
        requires { 1 ≤ next }
        ensures { result ≡ opened next [] }
    {
        with_numbers(Numbers::new(alloc), 0, raw(&next))
    }

    /// Exactly these numbers registered, each Live and as if its family had captured it.
    pub fn named(
        alloc: Global,
        next: FileNumber,
        files: &[(FamilyId, FileNumber)],
    ) -> Result<FileBook, OutOfMemory>
        requires next { 1 ≤ next }
        requires named { AreNamed next files.now }
        ensures { IfOk result (λ book. book ≡ opened next (map live_file files.now)) }
    {
        let mut numbers = Numbers::new(alloc);
        for (family, number) in files {
            numbers.push(number.0, FileStatus::Live, Some(*family))?;
        }
        Ok(with_numbers(numbers, files.len(), raw(&next)))
    }

    /// What always holds of the register. Does nothing and takes no memory.
    pub fn laws(&self)
        ensures { FilesStand self.now }
    {
        let _ = &self.next;
    }

    /// Captures the next number for the family's flush or compaction: it is Pending. Refused as
    /// `RegisterFull` where 1,048,576 numbers were captured or the next number is the greatest `u64`; a
    /// refusal leaves the book as it was.
    pub fn capture(&mut self, family: FamilyId) -> Result<FileNumber, Refusal>
        requires within { family < 16 }
        requires idle { slice_get self.old.captured family ≡ Some None }
        ensures captured { IfOk result
            (λ number. (number ≡ self.old.next) × (self.new ≡ captured_for self.old family)) }
        ensures refused { Refuses (capture_refusal self.old) result }
        ensures kept { OnErr result (self.new ≡ self.old) }
    {
        if self.made >= MAX_CAPTURED || self.next == u64::MAX {
            return Err(Refusal::RegisterFull);
        }
        let number = self.next;
        self.numbers
            .push(number, FileStatus::Pending, Some(family))?;
        self.captured[family.0 as usize] = Some(FileNumber(number));
        self.made += 1;
        self.next = number + 1;
        Ok(FileNumber(number))
    }

    /// Ends the capture of a Pending number: it is Live or Obsolete, and its family has no captured
    /// number. Takes no memory.
    pub fn settle(&mut self, number: FileNumber, settled: Settled)
        requires { IsRegistered self.old.numbers number status.Pending }
        ensures { Settles number (settled_status settled) self.old self.new }
    {
        let was = self.numbers.mark(number.0, status_of(settled));
        if let Some(family) = was.family {
            self.captured[family.0 as usize] = None;
        }
    }

    /// Makes a Live number Obsolete. Takes no memory.
    pub fn retire(&mut self, number: FileNumber)
        requires { IsRegistered self.old.numbers number status.Live }
        ensures { MarksOnly number status.Live status.Obsolete self.old self.new }
    {
        let _ = self.numbers.mark(number.0, FileStatus::Obsolete);
    }

    /// The number that the family's flush or compaction under way has captured. Takes no memory.
    pub fn busy(&self, family: FamilyId) -> Option<FileNumber>
        requires { family < 16 }
        ensures { slice_get self.now.captured family ≡ Some result }
    {
        self.captured[family.0 as usize]
    }

    /// What may be done with a number; none exactly where it is not registered. Takes no memory.
    pub fn status(&self, number: FileNumber) -> Option<FileStatus>
        ensures { MatchOption result (registered number self.now.numbers ≡ 0) (λ status. IsRegistered self.now.numbers number status) }
    {
        self.numbers.status(number.0)
    }

    /// The next number. Takes no memory.
    pub fn next(&self) -> FileNumber
        ensures { result ≡ self.now.next }
    {
        FileNumber(self.next)
    }

    /// The least captured number, or the greatest `u64` where none is captured. Takes no memory.
    pub fn bound(&self) -> u64
        ensures { result ≡ least_captured self.now.captured }
    {
        least(&self.captured)
    }

    /// Whether a capture would be refused: 1,048,576 numbers were captured or the next number is the
    /// greatest `u64`. Takes no memory.
    pub fn is_full(&self) -> bool
        ensures { capture_refusal self.now ≡ (if result then Some RegisterFull else None) }
    {
        self.made >= MAX_CAPTURED || self.next == u64::MAX
    }
}

// A book of these numbers, of which so many were captured.
fn with_numbers(numbers: Numbers, made: usize, next: u64) -> FileBook
    requires stand { FilesStand (opened next numbers) }
    requires made { made ≡ captures numbers }
    ensures { result ≡ opened next numbers }
{
    FileBook {
        numbers,
        captured: [None; FAMILIES],
        holds: [0; LANES],
        jobs: 0,
        made,
        next,
    }
}

fn raw(number: &FileNumber) -> u64
    ensures { result ≡ number.now }
{
    number.0
}

fn least(captured: &[Option<FileNumber>]) -> u64
    ensures { result ≡ least_captured captured.now }
{
    let mut bound = u64::MAX;
    for number in captured {
        if let Some(number) = number {
            bound = bound.min(number.0);
        }
    }
    bound
}
