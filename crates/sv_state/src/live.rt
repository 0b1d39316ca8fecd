// The files that a lane may copy while it has a hold.
ghost use Rattle.std.specs.Prelude.{◌≡◌, ◌<◌, ◌↔◌, ◌⊎◌, ℕ, None, Some, IfOk, OnOk, if◌then◌else◌, slice_index};
ghost use Rattle.std.specs.BTreeSet.{keys};
ghost use Rattle.std.specs.List.Sorted.{IsStrictlyIncreasing};
ghost use Rattle.sv_model.specs.declared.refusals.Refusal.TheVariants.{NoHold};
ghost use Rattle.sv_model.specs.Lists.{In};
ghost use Rattle.sv_model.specs.Named.{numbers_of};
ghost use Rattle.sv_model.specs.Numbers.{AreInOrder};
ghost use Rattle.sv_model.specs.Refusals.{Refuses};
ghost use Rattle.sv_files.specs.Calls.{unhold_refusal};
ghost use Rattle.sv_state.specs.Currents.{IsShownFile};

use crate::state::State;
use std::alloc::Global;
use std::collections::BTreeSet;
use sv_files::FileBook;
use sv_model::{FamilyId, FileMeta, FileNumber, OutOfMemory, Refusal};

impl State {
    /// The numbers of the files of the last Versions of the families that are not dropped, ascending. Refused as
    /// `NoHold` exactly where the lane, which is below 32, has no hold. Nothing changes.
    pub fn live_files(&mut self, lane: u8) -> Result<Vec<FileNumber>, Refusal>
        requires { lane < 32 }
        ensures shown { IfOk result (λ files. AreInOrder (IsShownFile self.old.books) files.items) }
        ensures refused { Refuses (unhold_refusal (slice_index self.old.books.files.holds lane)) result }
        ensures kept { self.new ≡ self.old }
    {
        if !has_hold(&mut self.objects.files, lane) {
            return Err(Refusal::NoHold);
        }
        let numbers = self.shown_numbers()?;
        Ok(listed(self.alloc, &numbers)?)
    }

    fn shown_numbers(&self) -> Result<BTreeSet<u64>, OutOfMemory>
        ensures { IfOk result (λ numbers. (n : ℕ) → In n (keys numbers) ↔ IsShownFile self.now.books n) }
    {
        let mut numbers = BTreeSet::new(self.alloc);
        for index in 0..self.families.len() {
            let family = FamilyId(index as u8);
            if self.families.is_dropped(family) {
                continue;
            }
            add_numbers(&mut numbers, self.last_files(family))?;
        }
        Ok(numbers)
    }
}

// Whether the lane has a hold. The book tells it of one that is given back, which is taken again.
fn has_hold(files: &mut FileBook, lane: u8) -> bool
    requires { lane < 32 }
    ensures held { unhold_refusal (slice_index files.old.holds lane) ≡ (if result then None else Some NoHold) }
    ensures kept { files.new ≡ files.old }
{
    files.laws();
    if files.unhold(lane).is_err() {
        return false;
    }
    let _ = files.hold(lane);
    true
}

fn add_numbers(numbers: &mut BTreeSet<u64>, files: &[FileMeta]) -> Result<(), OutOfMemory>
    ensures { OnOk result ((n : ℕ) → In n (keys numbers.new) ↔ (In n (keys numbers.old) ⊎ In n (numbers_of files.now))) }
{
    for file in files {
        if numbers.insert(number_of(file)).is_err() {
            return Err(OutOfMemory);
        }
    }
    Ok(())
}

fn number_of(file: &FileMeta) -> u64
    ensures { result ≡ file.now.number }
{
    file.number.0
}

fn listed(alloc: Global, numbers: &BTreeSet<u64>) -> Result<Vec<FileNumber>, OutOfMemory>
    ensures listed { IfOk result (λ files. files.items ≡ keys numbers.now) }
    ensures rising { IsStrictlyIncreasing (keys numbers.now) }
{
    let files = numbers
        .iter()
        .map(|number| FileNumber(*number))
        .collect(alloc)?;
    Ok(files)
}
