// What a report says of a run as a whole.
use crate::ids::{FamilyId, FileNumber};
use crate::item_list::Items;
use crate::names::Name;

/// The numbers of a report's end.
#[derive(Drop, Debug)]
pub struct Summary {
    /// In order of ids.
    pub families: Items<FamilyLine>,
    pub made: Totals,
    pub gone: Totals,
    pub strays_seen: u64,
    pub strays_gone: u64,
    pub end: End,
    /// The file numbers that close left, ascending.
    pub left: Items<FileNumber>,
}

/// A family in the report.
#[derive(Drop, Debug)]
pub struct FamilyLine {
    pub id: FamilyId,
    pub name: Name,
    pub dropped: bool,
    pub writes: u64,
    /// The files of its last Version, the oldest first; none where it is dropped.
    pub files: Items<FileNumber>,
}

/// How many objects; of files, the captured ones alone.
#[derive(Clone, Copy, Debug, PartialEq, Eq)]
pub struct Totals {
    pub superversions: u64,
    pub memtables: u64,
    pub files: u64,
}

/// How close ended.
#[derive(Clone, Copy, Debug, PartialEq, Eq)]
pub enum End {
    /// Every obsolete file was removed.
    Clean,
    /// A removal failed.
    DirFault,
    /// A removal was left undone for want of memory.
    OutOfMemory,
}
