// What the lanes answer.
use sv_model::{FamilyId, FileNumber, Items, Refusal, SvSerial, Value};

/// The reply to a command.
#[derive(Drop, Debug)]
pub enum Reply {
    /// The number of the write in its family, from 1.
    Put(u64),
    /// As of a put.
    Delete(u64),
    /// The value after the first `cut` writes of the family, read through this SuperVersion.
    Found {
        value: Value,
        cut: u64,
        sv: SvSerial,
    },
    /// As `Found`, where there is no value.
    Absent {
        cut: u64,
        sv: SvSerial,
    },
    /// The file that was made covers the writes `from + 1` to `to` of the family.
    Flush {
        number: FileNumber,
        from: u64,
        to: u64,
    },
    /// As of a flush.
    Compact {
        number: FileNumber,
        from: u64,
        to: u64,
    },
    Create(FamilyId),
    Open(FamilyId),
    Release,
    Drop,
    /// The SuperVersion that has the new option.
    Set(SvSerial),
    /// The number of the pin, 0 to 15, and the SuperVersion that it keeps.
    Pin {
        pin: u8,
        sv: SvSerial,
    },
    Unpin,
    /// The lane's count of holds after it.
    Hold(u32),
    /// The lane's count of holds after it.
    Unhold(u32),
    /// The files of the current Versions of the families that are not dropped, ascending.
    Live(Items<FileNumber>),
    /// The files that were removed, ascending.
    Purge(Items<FileNumber>),
    /// The files that were removed, ascending.
    Scan(Items<FileNumber>),
    /// How many cached references were dropped.
    Rest(u32),
    /// The snapshot reads what the first `at` writes of the journal leave.
    Snap {
        snapshot: u32,
        at: u64,
    },
    Unsnap,
    Refused(Refusal),
}

/// What a lane counted.
#[derive(Clone, Copy, Debug, PartialEq, Eq)]
pub struct Tail {
    /// Borrows that were begun.
    pub uses: u64,
    /// Borrows that found no SuperVersion that stands.
    pub misses: u64,
    /// Borrows that a sweep had met when they were given back.
    pub swept: u64,
}

/// A lane's section of the report.
#[derive(Drop, Debug)]
pub struct LaneReport {
    /// 1 to 32.
    pub lane: u8,
    /// Each reply with the number of its line, in the order of the lines.
    pub replies: Items<(u64, Reply)>,
    pub counts: Tail,
}
