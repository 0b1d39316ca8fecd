// Purges: the files that nothing needs are removed.
ghost use Rattle.std.specs.Prelude.{◌≡◌, ℕ, [], None, IfOk, IfErr, IfSome, OnOk, OnErr, sum};
ghost use Rattle.sv_model.specs.declared.records.FileStatus.TheVariants.{Gone, Obsolete};
ghost use Rattle.sv_model.specs.Faults.{HasCauseOf};
ghost use Rattle.sv_model.specs.Numbers.{AreInOrder, IsReady, MarksOnly};
ghost use Rattle.sv_model.specs.Refusals.{RefusesExactly};
ghost use Rattle.sv_dir.specs.Files.{MayRemove, RemovesFile};
ghost use Rattle.sv_files.specs.Calls.{disabled};
ghost use Rattle.sv_state.specs.Follows.{Follows, OnlyFiles};
ghost use Rattle.sv_store.specs.HeldFiles.{IsHeld, LeavesOthers};
ghost use Rattle.sv_store.specs.Purging.{PurgeStops, Purges};
ghost use Rattle.sv_store.specs.Removals.{Removes, RemovesSome};

use crate::removals::{refused_after, remove_grabbed};
use crate::store::Store;
use sv_dir::{Dir, DirError, Removal};
use sv_model::{FileNumber, Refusal};
use sv_state::State;

// Takes a number that is ready and removes its file: it is Gone then. Where that fails all stays as it was.
fn remove_ready<D: Dir>(
    state: &mut State,
    dir: &mut D,
    number: FileNumber,
) -> Result<Removal, DirError>
    requires ready { IsReady state.old.books.files number }
    requires free { sum state.old.books.files.holds ≡ 0 }
    requires idle { state.old.books.files.jobs ≡ 0 }
    ensures gone { OnOk result (MarksOnly number Obsolete Gone state.old.books.files state.new.books.files) }
    ensures left { OnErr result (state.new ≡ state.old) }
    ensures removed { OnOk result (RemovesFile number (D.files dir.old) (D.files dir.new)) }
    ensures failed { OnErr result (MayRemove number (D.files dir.old) (D.files dir.new)) }
    ensures cause { HasCauseOf DirError.Failed (D.faults dir.old) (D.faults dir.new) result }
    ensures rest { OnlyFiles state.old state.new }
    ensures follows { Follows state.old.books state.new.books }
{
    state.laws();
    if !state.take(number) {
        unreachable!();
    }
    let tried = remove_grabbed(state, dir, number);
    state.end_job();
    tried
}

// Takes each of these numbers, which are those that are ready, and removes its file. Each is tried once, in their order.
// Gives what is to be answered where some are left.
pub(crate) fn remove_each<D: Dir>(
    state: &mut State,
    dir: &mut D,
    ready: &[FileNumber],
) -> Option<Refusal>
    requires ready { AreInOrder (IsReady state.old.books.files) ready.now }
    requires free { sum state.old.books.files.holds ≡ 0 }
    requires idle { state.old.books.files.jobs ≡ 0 }
    ensures all { result ≡ None → Removes state.old.books.files state.new.books.files (record { files = D.files dir.old; later = D.files dir.new; before = D.faults dir.old; now = D.faults dir.new }) ready.now ready.now [] }
    ensures some { IfSome result (RemovesSome state.old.books.files state.new.books.files (record { files = D.files dir.old; later = D.files dir.new; before = D.faults dir.old; now = D.faults dir.new }) ready.now) }
    ensures rest { OnlyFiles state.old state.new }
    ensures follows { Follows state.old.books state.new.books }
{
    state.laws();
    let mut refused = None;
    for number in ready {
        let tried = remove_ready(state, dir, *number);
        refused = refused_after(refused, *number, tried);
    }
    refused
}

impl Store {
    /// Removes the files of the numbers that are Obsolete and below the bound, each tried once, in ascending order. Gives
    /// these numbers, which are Gone.
    ///
    /// Refused as `Disabled` exactly where holds stand. Where a removal failed it is refused as `DirFault` with the first
    /// number that is left, and where one ran out of memory as that; the other numbers are Gone then.
    pub fn purge<D: Dir>(&mut self, dir: &mut D) -> Result<Vec<FileNumber>, Refusal>
        ensures purged { IfOk result (λ numbers. Purges self.old.books.files self.new.books.files (record { files = D.files dir.old; later = D.files dir.new; before = D.faults dir.old; now = D.faults dir.new }) numbers.items) }
        ensures stops { IfErr result (PurgeStops self.old.books.files self.new.books.files (record { files = D.files dir.old; later = D.files dir.new; before = D.faults dir.old; now = D.faults dir.new })) }
        ensures none { ((n : ℕ) → IsReady self.old.books.files n → ⊥) → RefusesExactly (disabled self.old.books.files) result }
        ensures held { IsHeld self.old.books (D.files dir.old) → IsHeld self.new.books (D.files dir.new) }
        ensures others { LeavesOthers self.old.books self.new.books (D.files dir.old) (D.files dir.new) }
        ensures rest { self.new ≡ record self.old { books = record self.old.books { files = self.new.books.files } } }
        ensures follows { Follows self.old.books self.new.books }
    {
        let ready = match self.state.ready() {
            Ok(ready) => ready,
            Err(refusal) => return Err(refusal),
        };
        match remove_each(&mut self.state, dir, ready.as_slice()) {
            None => Ok(ready),
            Some(refusal) => Err(refusal),
        }
    }
}
