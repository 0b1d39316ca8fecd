// Scans: the files that nothing needs are removed, and the strays in the directory.
ghost use Rattle.std.specs.Prelude.{◌≡◌, ◌≤◌, None, IfOk, IfErr, map, string_bytes};
ghost use Rattle.sv_dir.specs.TableNames.{number_named};
ghost use Rattle.sv_file_checks.specs.Faults.{CountsFault};
ghost use Rattle.sv_files.specs.Calls.{disabled};
ghost use Rattle.sv_state.specs.Follows.{Follows, OnlyFiles};
ghost use Rattle.sv_store.specs.HeldFiles.{IsHeld, LeavesOthers};
ghost use Rattle.sv_store.specs.Scanning.{IsListing, ListingRefused, ScanStops, Scans, numbers_named};

use crate::removals::{refused_after, remove_grabbed};
use crate::store::Store;
use std::alloc::{AllocError, Global};
use sv_dir::{Dir, DirError, parse_name};
use sv_model::{FileNumber, Refusal};
use sv_state::State;

// The numbers of the table files among these names.
fn numbers_of(alloc: Global, names: &[String]) -> Result<Vec<FileNumber>, AllocError>
    ensures { IfOk result (λ numbers. numbers.items ≡ numbers_named (map string_bytes names.now)) }
{
    names
        .iter()
        .filter_map(
            |name|
                ensures { result ≡ number_named (string_bytes name.now) }
            { parse_name(name.as_str()) },
        )
        .collect(alloc)
}

// The numbers of the table files in the directory. A failure of the directory is told with the number 0.
fn list_numbers<D: Dir>(alloc: Global, dir: &mut D) -> Result<Vec<FileNumber>, Refusal>
    ensures listed { IfOk result (λ listed. IsListing (D.files dir.old) listed.items) }
    ensures refused { IfErr result ListingRefused }
    ensures same { D.files dir.new ≡ D.files dir.old }
    ensures faults { CountsFault result (D.faults dir.old) (D.faults dir.new) }
{
    let names = match dir.list() {
        Ok(names) => names,
        Err(DirError::Failed) => return Err(Refusal::DirFault { number: 0 }),
        Err(DirError::OutOfMemory) => return Err(Refusal::OutOfMemory),
    };
    match numbers_of(alloc, names.as_slice()) {
        Ok(numbers) => Ok(numbers),
        Err(_) => Err(Refusal::OutOfMemory),
    }
}

// Takes the Obsolete numbers below the bound and the strays of a listing, and removes the file of each. Each is tried
// once, in ascending order.
fn remove_listed<D: Dir>(
    state: &mut State,
    dir: &mut D,
    listed: &[FileNumber],
) -> Result<Vec<FileNumber>, Refusal>
    requires free { disabled state.old.books.files ≡ None }
    requires idle { state.old.books.files.jobs ≡ 0 }
    requires listing { IsListing (D.files dir.old) listed.now }
    ensures scanned { IfOk result (λ numbers. Scans state.old.books.files state.new.books.files (record { files = D.files dir.old; later = D.files dir.new; before = D.faults dir.old; now = D.faults dir.new }) numbers.items) }
    ensures stops { IfErr result (ScanStops state.old.books.files state.new.books.files (record { files = D.files dir.old; later = D.files dir.new; before = D.faults dir.old; now = D.faults dir.new })) }
    ensures rest { OnlyFiles state.old state.new }
    ensures follows { Follows state.old.books state.new.books }
{
    state.laws();
    let found = match state.scan(listed) {
        Ok(found) => found,
        Err(refusal) => return Err(refusal),
    };
    let numbers = found.as_slice();
    let mut refused = None;
    for number in numbers {
        let tried = remove_grabbed(state, dir, *number);
        refused = refused_after(refused, *number, tried);
    }
    state.end_job();
    match refused {
        None => Ok(found),
        Some(refusal) => Err(refusal),
    }
}

impl Store {
    /// Lists the directory, and removes the files of the numbers that are Obsolete and below the bound and of the
    /// strays: the numbers in the listing that are not registered, below the bound and below the next number. Each is
    /// tried once, in ascending order. Gives these numbers, which are Gone.
    ///
    /// Refused as `Disabled` exactly where holds stand. Where the listing failed it is refused as `DirFault` with the
    /// number 0, and nothing changes. Where a removal failed it is refused as `DirFault` with the first number that is
    /// left, and where one ran out of memory as that; the other numbers are Gone then, and strays that are left stay
    /// registered as Obsolete.
    pub fn scan<D: Dir>(&mut self, dir: &mut D) -> Result<Vec<FileNumber>, Refusal>
        ensures scanned { IfOk result (λ numbers. Scans self.old.books.files self.new.books.files (record { files = D.files dir.old; later = D.files dir.new; before = D.faults dir.old; now = D.faults dir.new }) numbers.items) }
        ensures stops { IfErr result (ScanStops self.old.books.files self.new.books.files (record { files = D.files dir.old; later = D.files dir.new; before = D.faults dir.old; now = D.faults dir.new })) }
        ensures held { IsHeld self.old.books (D.files dir.old) → IsHeld self.new.books (D.files dir.new) }
        ensures others { LeavesOthers self.old.books self.new.books (D.files dir.old) (D.files dir.new) }
        ensures rest { self.new ≡ record self.old { books = record self.old.books { files = self.new.books.files } } }
        ensures follows { Follows self.old.books self.new.books }
    {
        let holds = self.state.holds();
        if holds > 0 {
            let count = u64::from(holds);
            return Err(Refusal::Disabled { count });
        }
        let listed = match list_numbers(self.alloc, dir) {
            Ok(listed) => listed,
            Err(refusal) => return Err(refusal),
        };
        remove_listed(&mut self.state, dir, listed.as_slice())
    }
}
