// What a job grabs: Obsolete numbers, and the strays of a listing.
ghost use Rattle.std.specs.Prelude.{◌≡◌, ◌<◌, ◌≤◌, ◌++◌, ℕ, List, IfOk, OnErr, OnOk, map, length, take, min};
ghost use Rattle.sv_model.specs.declared.records.RegisteredFile.{RegisteredFile};
ghost use Rattle.sv_model.specs.Lists.{In};
ghost use Rattle.sv_model.specs.Numbers.{registered};
ghost use Rattle.sv_files.specs.Calls.{grab};
ghost use Rattle.sv_files.specs.Kept.{AddsStrays, FindsStrays};

use crate::numbers::Numbers;
use sv_model::{FileNumber, FileStatus, OutOfMemory};

// Makes each of these numbers Grabbed.
pub(crate) fn grab_all(numbers: &mut Numbers, found: &[FileNumber])
    requires { (n : ℕ) → In n found.now → 0 < registered n numbers.old }
    ensures { numbers.new ≡ map (grab found.now) numbers.old }
{
    for number in found {
        let _ = numbers.mark(number.0, FileStatus::Grabbed);
    }
}

// Registers the strays of a listing as Obsolete, and finds all Obsolete numbers below the bound. Where it runs out of
// memory, no stray stays registered.
pub(crate) fn find_with_strays(
    numbers: &mut Numbers,
    listed: &[FileNumber],
    bound: u64,
    next: u64,
) -> Result<Vec<FileNumber>, OutOfMemory>
    ensures found { IfOk result
        (λ found. FindsStrays numbers.old numbers.new listed.now bound next found.items) }
    ensures kept { OnErr result (numbers.new ≡ numbers.old) }
{
    let before = numbers.as_slice().len();
    let found = match add_strays(numbers, listed, bound.min(next)) {
        Ok(()) => numbers.obsolete_below(bound),
        Err(refused) => Err(refused),
    };
    if found.is_err() {
        cut_back(numbers, before);
    }
    found
}

// Registers each listed number below the limit that is not registered.
fn add_strays(numbers: &mut Numbers, listed: &[FileNumber], limit: u64) -> Result<(), OutOfMemory>
    ensures added { OnOk result (AddsStrays numbers.old numbers.new listed.now limit) }
    ensures begun { (more : List RegisteredFile) × (numbers.new ≡ numbers.old ++ more) }
{
    for number in listed {
        if number.0 < limit && !numbers.is_registered(number.0) {
            numbers.push(number.0, FileStatus::Obsolete, None)?;
        }
    }
    Ok(())
}

// Takes back the last registrations, so that as many numbers stay.
fn cut_back(numbers: &mut Numbers, stay: usize)
    requires { stay ≤ length numbers.old }
    ensures { numbers.new ≡ take stay numbers.old }
{
    while numbers.as_slice().len() > stay {
        numbers.take_back();
    }
}
