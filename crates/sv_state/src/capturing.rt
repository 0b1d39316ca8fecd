// A flush or a compaction captures a number for its file, and gives it up.
ghost use Rattle.std.specs.Prelude.{◌≡◌, ◌<◌, ℕ, true, false, IfOk, OnErr, Some};
ghost use Rattle.sv_model.specs.declared.records.FileMeta.{FileMeta};
ghost use Rattle.sv_model.specs.Ranges.{reach_of};
ghost use Rattle.sv_model.specs.Refusals.{Refuses};
ghost use Rattle.sv_files.specs.Calls.{capture_refusal};
ghost use Rattle.sv_laws.specs.Captures.{IsFlushBegun, IsGivenUp};
ghost use Rattle.sv_state.specs.Capturing.{CanBegin, IsUnderWay};
ghost use Rattle.sv_state.specs.Follows.{Follows};

use crate::installs::body_at;
use crate::state::State;
use sv_files::Settled;
use sv_model::{Bottom, Cuts, FamilyId, FileMeta, FileNumber, Refusal};

impl State {
    /// Captures the number of a file that is to cover the list of the family's current SuperVersion, and that keeps what
    /// the Live snapshots need. Refused as `RegisterFull` where no number is left.
    pub fn flush_begin(&mut self, family: FamilyId) -> Result<FileMeta, Refusal>
        requires { CanBegin self.old.books family }
        ensures begun { IfOk result (λ file. IsFlushBegun self.old.books self.new.books family file) }
        ensures refused { Refuses (capture_refusal self.old.books.files) result }
        ensures kept { OnErr result (self.new ≡ self.old) }
        ensures spare { self.new.spare ≡ self.old.spare }
        ensures follows { Follows self.old.books self.new.books }
    {
        let body = body_at(&self.held, family);
        let (from, to) = (reach(body.files.as_slice()), body.descriptor.base);
        let cuts = self.journal.live_cuts(family, from, to);
        let Ok(()) = self.metas.reserve(1) else {
            return Err(Refusal::OutOfMemory);
        };
        let number = self.objects.files.capture(family)?;
        self.metas
            .push_reserved(file_over(number, from, to, false, &cuts));
        Ok(file_over(number, from, to, false, &cuts))
    }

    /// Gives up the output of a flush or a compaction: its number is Obsolete, and the family has no captured number.
    /// Takes no memory.
    pub fn output_failed(&mut self, number: FileNumber)
        requires { IsUnderWay self.old.books number }
        ensures given_up { (family : ℕ) × IsGivenUp self.old.books self.new.books family number }
        ensures spare { self.new.spare ≡ self.old.spare }
        ensures follows { Follows self.old.books self.new.books }
    {
        self.objects.files.settle(number, Settled::Obsolete);
    }
}

// The file of this number, over this range.
pub(crate) fn file_over(number: FileNumber, from: u64, to: u64, last: bool, cuts: &Cuts) -> FileMeta
    ensures { result ≡ record { number = number; from = from; to = to; bottom = record { last = last; cuts = cuts.now } } }
{
    FileMeta {
        number,
        from,
        to,
        bottom: Bottom { last, cuts: *cuts },
    }
}

// The last write that the files cover.
pub(crate) fn reach(files: &[FileMeta]) -> u64
    ensures { result ≡ reach_of files.now }
{
    let mut reach = 0;
    for file in files {
        reach = file.to;
    }
    reach
}
