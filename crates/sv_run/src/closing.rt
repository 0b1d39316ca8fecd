// The run of a script over a directory, from the opening of the store to its close.
ghost use Rattle.std.specs.Prelude.{◌≡◌, ◌<◌, ◌≤◌, IfOk, IfSome, OnErr, [], ◌∷◌, vec_capacity};
ghost use Rattle.sv_script.specs.ScriptLaws.{IsWellFormed};
ghost use Rattle.sv_run.specs.Ends.{LanesRan};
ghost use Rattle.sv_run.specs.Handed.{IsUntouched};
ghost use Rattle.sv_run.specs.Openings.{IsFirst};

use crate::outcomes::Done;
use std::alloc::Global;
use sv_dir::Dir;
use sv_lane::play;
use sv_model::{FileNumber, Items, OutOfMemory};
use sv_script::{LaneReport, Reply, Script, Tail};
use sv_store::Store;

// The report of the one lane. The numbers of its tail stay 0 as long as there are no slots.
fn one_lane(mut lanes: Vec<LaneReport>, replies: Items<(u64, Reply)>) -> Items<LaneReport>
    requires none { lanes.items ≡ [] }
    requires room { 0 < vec_capacity lanes }
    ensures { result ≡ record { lane = 1; replies = replies; counts = record { uses = 0; misses = 0; swept = 0 } } ∷ [] }
{
    let counts = Tail {
        uses: 0,
        misses: 0,
        swept: 0,
    };
    lanes.push_reserved(LaneReport {
        lane: 1,
        replies,
        counts,
    });
    Items::from_vec(lanes)
}

/// Runs the one lane of the script over the directory, and closes. Files are numbered from `first` on. Where memory
/// is wanted for the run as a whole, nothing runs.
pub fn run_script<D: Dir>(
    alloc: Global,
    script: &Script,
    first: FileNumber,
    dir: &mut D,
) -> Result<Done, OutOfMemory>
    requires well_formed { IsWellFormed script.now }
    requires some { 1 ≤ first }
    requires first { IfSome (D.files dir.old) (IsFirst first) }
    ensures ran { IfOk result (LanesRan (record { files = D.files dir.old; later = D.files dir.new; before = D.faults dir.old; now = D.faults dir.new }) script.now) }
    ensures short { OnErr result (IsUntouched (record { files = D.files dir.old; later = D.files dir.new; before = D.faults dir.old; now = D.faults dir.new })) }
    ensures later { D.faults dir.old ≤ D.faults dir.new }
{
    let lines = script.lines.as_slice();
    let replies = Vec::with_capacity(alloc, lines.len())?;
    let lanes = Vec::with_capacity(alloc, 1)?;
    let mut store = Store::new(alloc, first.0)?;
    store.laws();
    let replies = play(alloc, &mut store, dir, lines, replies);
    let closed = store.close(dir);
    Ok(Done {
        books: closed.books,
        lanes: one_lane(lanes, replies),
        end: closed.end,
    })
}
