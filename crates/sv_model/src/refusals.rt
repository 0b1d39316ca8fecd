// The numbered refusals.
use crate::faults::OutOfMemory;

/// Why a command or a call was refused. The numbers are those that the report prints.
#[derive(Clone, Copy, Debug, PartialEq, Eq)]
pub enum Refusal {
    /// 1: the key's length is not 1 to 64.
    KeyLength {
        length: u64,
    },
    /// 2: the value's length is above 1,024.
    ValueLength {
        length: u64,
    },
    /// 3: a SuperVersion is to be made and 256 are Live.
    TooManyLive,
    /// 4: a register is full: no serial or no file number is left.
    RegisterFull,
    /// 5: a family that is not dropped has the name.
    NameTaken,
    /// 6: 16 families were made.
    TooManyFamilies,
    /// 7: the lane has no handle of the name, and no family that is not dropped has it.
    NoFamily,
    /// 8: the lane has a handle of the name.
    AlreadyOpen,
    /// 9: the lane has no handle of the name, and a family that is not dropped has it.
    NotOpen,
    /// 10: the name is `default`.
    IsDefault,
    /// 11: the lane's handle is of a dropped family.
    Dropped,
    /// 12: the value is outside the option's range.
    BadOption {
        value: u64,
        least: u64,
        greatest: u64,
    },
    /// 13: the lane has no hold.
    NoHold,
    /// 14: holds stand, as many as shown.
    Disabled {
        count: u64,
    },
    /// 15: a switch is due and the family's list is full.
    Stalled,
    /// 16: the active memtable has no row and the list no member.
    NothingToFlush,
    /// 17: the journal has 262,144 writes.
    JournalFull,
    /// 18: a memtable is to be made and no cell is free.
    TooManyMemtables,
    /// 19: the lane has 16 pins.
    TooManyPins,
    /// 20: the lane has no pin of that number.
    NoPin,
    /// 21: the directory failed at the file of this number, or 0 at a listing.
    DirFault {
        number: u64,
    },
    /// 22: the file of this number is no table, or not the one that was written, at this place.
    BadFile {
        number: u64,
        place: u64,
    },
    /// 23: the family's flush or compaction under this number is under way.
    Busy {
        number: u64,
    },
    /// 24: the Version has no file, or one with nothing below it, each of whose cuts a Live snapshot has.
    NothingToCompact,
    /// 25: the lane has 255 holds.
    TooManyHolds,
    /// 26: 64 snapshots are Live.
    TooManySnapshots,
    /// 27: the number is that of no Live snapshot.
    NoSnapshot,
    /// 28: the lane has no iterator.
    NoIterator,
    /// 29: the lane has no handle of the name at this place in a list of names, counted from 1.
    NoHandle {
        index: u64,
    },
    /// Out of memory. It has no number.
    OutOfMemory,
}

impl From<OutOfMemory> for Refusal {
    ghost use Rattle.std.specs.Prelude.{◌≡◌};
    ghost use Rattle.sv_model.specs.declared.refusals.Refusal.TheVariants as refusal;

    ghost from_gives = { λ _ r. r ≡ refusal.OutOfMemory };

    fn from(_fault: OutOfMemory) -> Refusal {
        Refusal::OutOfMemory
    }
}
