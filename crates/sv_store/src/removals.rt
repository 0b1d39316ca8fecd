// Removals of files that were taken, and what is answered where some fail.
ghost use Rattle.std.specs.Prelude.{◌≡◌, OnOk, OnErr};
ghost use Rattle.sv_model.specs.declared.records.FileStatus.TheVariants.{Gone, Grabbed, Obsolete};
ghost use Rattle.sv_model.specs.Faults.{HasCauseOf};
ghost use Rattle.sv_model.specs.Numbers.{IsRegistered, MarksOnly};
ghost use Rattle.sv_dir.specs.Files.{MayRemove, RemovesFile};
ghost use Rattle.sv_state.specs.Follows.{Follows, OnlyFiles};
ghost use Rattle.sv_store.specs.Removals.{refused_after};

use sv_dir::{Dir, DirError, Removal};
use sv_model::{FileNumber, Refusal};
use sv_state::State;

// Removes the file of a Grabbed number, which is Gone then. Where that fails it is Obsolete again.
pub(crate) fn remove_grabbed<D: Dir>(
    state: &mut State,
    dir: &mut D,
    number: FileNumber,
) -> Result<Removal, DirError>
    requires { IsRegistered state.old.books.files.numbers number Grabbed }
    ensures gone { OnOk result (MarksOnly number Grabbed Gone state.old.books.files state.new.books.files) }
    ensures left { OnErr result (MarksOnly number Grabbed Obsolete state.old.books.files state.new.books.files) }
    ensures removed { OnOk result (RemovesFile number (D.files dir.old) (D.files dir.new)) }
    ensures failed { OnErr result (MayRemove number (D.files dir.old) (D.files dir.new)) }
    ensures cause { HasCauseOf DirError.Failed (D.faults dir.old) (D.faults dir.new) result }
    ensures rest { OnlyFiles state.old state.new }
    ensures follows { Follows state.old.books state.new.books }
{
    let tried = dir.remove(number);
    state.ungrab(number, tried.is_ok());
    tried
}

// What is answered after this removal, where that much was to be answered before it. Out of memory goes before a fault,
// and the first fault before the others.
pub(crate) fn refused_after(
    refused: Option<Refusal>,
    number: FileNumber,
    tried: Result<Removal, DirError>,
) -> Option<Refusal>
    ensures { result ≡ refused_after refused number tried }
{
    match tried {
        Ok(_) => refused,
        Err(DirError::OutOfMemory) => Some(Refusal::OutOfMemory),
        Err(DirError::Failed) => match refused {
            None => Some(Refusal::DirFault { number: number.0 }),
            Some(first) => Some(first),
        },
    }
}
