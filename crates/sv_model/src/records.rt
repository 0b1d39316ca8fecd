// The records of the registers: what is kept of each object ever made. A status changes in place.
use crate::cuts::Bottom;
use crate::ids::{FamilyId, FileNumber, ListId, MemId, SvSerial, VersionId};
use crate::item_list::Items;
use crate::names::Name;
use crate::settings::Options;

/// A table file: its number, the writes of its family that it covers, and what its rows keep of them.
#[derive(Clone, Copy, Debug, PartialEq, Eq)]
pub struct FileMeta {
    pub number: FileNumber,
    /// The file covers the writes `from + 1` to `to` of its family.
    pub from: u64,
    pub to: u64,
    pub bottom: Bottom,
}

/// What a SuperVersion names.
#[derive(Clone, Copy, Debug, PartialEq, Eq)]
pub struct Descriptor {
    pub family: FamilyId,
    pub active: MemId,
    pub list: ListId,
    pub version: VersionId,
    /// The number of writes of the family before the active memtable.
    pub base: u64,
    pub options: Options,
}

/// A SuperVersion ever made; its serial is its number in the register.
#[derive(Clone, Copy, Debug, PartialEq, Eq)]
pub struct SuperVersion {
    pub descriptor: Descriptor,
    /// The place of its reference word, 0 to 255.
    pub place: u8,
    pub live: bool,
}

/// A memtable ever made.
#[derive(Clone, Copy, Debug, PartialEq, Eq)]
pub struct Memtable {
    pub family: FamilyId,
    /// The number of writes of the family before it.
    pub first: u64,
    /// Its cell, 0 to 63.
    pub cell: u8,
    pub live: bool,
}

/// A list of immutable memtables ever made.
#[derive(Drop, Debug)]
pub struct MemtableList {
    /// The oldest first.
    pub members: Items<MemId>,
    pub live: bool,
}

/// A Version ever made.
#[derive(Drop, Debug)]
pub struct Version {
    /// The oldest first.
    pub files: Items<FileMeta>,
    pub live: bool,
}

/// What may be done with a file number.
#[derive(Clone, Copy, Debug, PartialEq, Eq)]
pub enum FileStatus {
    /// Captured, and being written.
    Pending,
    /// Named by a Version.
    Live,
    /// Named by nothing, to be removed.
    Obsolete,
    /// Handed out for removal.
    Grabbed,
    /// Removed.
    Gone,
}

/// A file number ever registered. A captured one has its family; a stray, found in the folder, has none.
#[derive(Clone, Copy, Debug, PartialEq, Eq)]
pub struct RegisteredFile {
    pub number: FileNumber,
    pub status: FileStatus,
    pub family: Option<FamilyId>,
}

/// A column family ever made.
#[derive(Drop, Debug)]
pub struct Family {
    pub name: Name,
    pub options: Options,
    pub dropped: bool,
    /// Which of the 32 lanes has a handle.
    pub handles: [bool; 32],
}

/// What a family has on top: its current SuperVersion, until it is retired, and its last Version.
#[derive(Clone, Copy, Debug, PartialEq, Eq)]
pub struct Top {
    pub current: Option<SvSerial>,
    pub last: VersionId,
}

/// A snapshot ever made: it reads what the first `at` writes of the journal leave.
#[derive(Clone, Copy, Debug, PartialEq, Eq)]
pub struct Snapshot {
    pub at: u64,
    pub live: bool,
}
