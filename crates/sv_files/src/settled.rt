// What becomes of a captured number.
ghost use Rattle.std.specs.Prelude.{◌≡◌};
ghost use Rattle.sv_files.specs.Calls.{settled_status};

use sv_model::FileStatus;

/// How a flush or compaction ended for the number that it had captured.
#[derive(Clone, Copy, Debug, PartialEq, Eq)]
pub enum Settled {
    /// Its file is named by the Version that was installed.
    Live,
    /// Its file is to be removed: the writing or the install failed.
    Obsolete,
}

// The status of a number that was settled so.
pub(crate) fn status_of(settled: Settled) -> FileStatus
    ensures { result ≡ settled_status settled }
{
    match settled {
        Settled::Live => FileStatus::Live,
        Settled::Obsolete => FileStatus::Obsolete,
    }
}
