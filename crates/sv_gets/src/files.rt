// A read of the files of a SuperVersion, under the directory's lock.
ghost use Rattle.std.specs.Prelude.{Err, ℕ, ◌<◌, ◌≡◌};
ghost use Rattle.sv_borrows.specs.Lending.{IsFree};
ghost use Rattle.sv_borrows.specs.Parts.{body_of};
ghost use Rattle.sv_gets.specs.Reading.{MayRead, Reads, ReadsFiles, reads_in};
ghost use Rattle.sv_file_checks.specs.Faults.{fault_of};
ghost use Rattle.sv_model.specs.Lists.{bit};
ghost use Rattle.sv_model.specs.declared.refusals.Refusal.TheVariants.{DirFault};
ghost use Rattle.sv_rule.specs.LockPlays.{MayGiveDir, gave_dir};
ghost use Rattle.sv_slots.specs.Known.{CameWith, IsSameSeat, table_of, view_of};
ghost use Rattle.sv_slots.specs.Seats.{bodied};

use std::alloc::Global;
use std::marker::Brand;
use std::sync::Wait;
use sv_borrows::{Folder, Seat, Table};
use sv_dir::Dir;
use sv_model::{Key, Op, Refusal, SvRef};
use sv_objects::Body;
use sv_reads::find_in_files;
use sv_rule::Reports;

// Whether the directory failed.
fn is_fault<T>(answer: &Result<T, Refusal>) -> bool
    ensures { bit result ≡ fault_of answer.now }
{
    matches!(answer, Err(Refusal::DirFault { .. }))
}

// The directory is given back, of which the files of the body were read.
fn give_folder<J: Reports, D: Dir + Drop>(
    core: &Table<D>,
    seat: &mut Seat<D>,
    folder: Folder<D>,
    _body: &Body,
    _failed: bool,
)
    requires table { CameWith (table_of core.now) seat.old }
    requires marks { (J.task ≡ (view_of seat.old).known.task) × (J.rise ≡ bit _failed) }
    requires listed { (J.names ≡ (view_of seat.old).names) × (J.lists ≡ 0) }
    requires reads { J.reads ≡ reads_in (D.files folder.dir.value) _body.now.files }
    requires lock { MayGiveDir (view_of seat.old) (record { files = D.files folder.dir.value; faults = D.faults folder.dir.value }) J.task J.reads J.names J.lists J.rise }
    ensures same { IsSameSeat seat.old seat.new }
    ensures gave { view_of seat.new ≡ gave_dir (view_of seat.old).known.task (reads_in (D.files folder.dir.value) _body.now.files) (view_of seat.old).names 0 (bit _failed) (view_of seat.old) }
{
    core.give_dir::<J>(seat, folder);
}

/// Reads the files of a SuperVersion of which the lane has a reference.
pub(crate) fn read_files<D: Dir + Drop, R: Wait>(
    rt: &R,
    alloc: Global,
    core: &Table<D>,
    seat: &mut Seat<D>,
    sv: &SvRef<Body>,
    key: &Key,
    cut: u64,
) -> Result<Option<Op>, Refusal>
    requires table { CameWith (table_of core.now) seat.old }
    requires free { IsFree (view_of seat.old) }
    requires sv { MayRead sv.now.body.value.descriptor.family (bodied body_of sv.now) (view_of seat.old) }
    ensures same { IsSameSeat seat.old seat.new }
    ensures reads { Reads 0 (view_of seat.old) (view_of seat.new) }
    ensures files { ReadsFiles (bodied body_of sv.now) key.now cut result (view_of seat.old) (view_of seat.new) }
    ensures failed { (n : ℕ) → result ≡ Err (DirFault n) → (view_of seat.old).counts.faults < (view_of seat.new).counts.faults }
{
    let body: &Body = &sv.body;
    let mut folder = core.take_dir(rt, seat);
    let found = find_in_files(alloc, &mut *folder.dir, body, key, cut);
    give_folder::<Brand, D>(core, seat, folder, body, is_fault(&found));
    found
}
