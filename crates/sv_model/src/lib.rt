//! The words that every crate speaks: ids, keys, values, writes, the records of the registers, refusals.
#![tactic(auto)]

mod counts;
mod cuts;
mod faults;
mod holders;
mod ids;
mod item_list;
mod keys;
mod limits;
mod names;
mod openings;
mod placed;
mod raising;
mod records;
mod refusals;
mod reports;
mod searches;
mod settings;
mod sv_refs;
mod tables;
mod values;
mod writes;

pub use counts::Counts;
pub use cuts::{Bottom, Cuts, MAX_CUTS};
pub use faults::OutOfMemory;
pub use holders::{Holder, HolderRegister, MAX_HOLDERS};
pub use ids::{FamilyId, FileNumber, ListId, MemId, Pack, SvSerial, VersionId};
pub use item_list::Items;
pub use keys::{Key, MAX_KEY};
pub use limits::{
    MAX_CAPTURED, MAX_CELLS, MAX_FAMILIES, MAX_HOLDS, MAX_JOBS, MAX_LANES, MAX_PLACES, MAX_ROWS,
    MAX_SNAPSHOTS, MAX_SNAPSHOTS_LIVE, MAX_SUPERS, MAX_WRITES,
};
pub use names::{MAX_NAME, Name};
pub use openings::{OpenFamily, Opening};
pub use placed::{MAX_PLACED, Placed, PlacedRegister};
pub use records::{
    Descriptor, Family, FileMeta, FileStatus, Memtable, MemtableList, RegisteredFile, Snapshot,
    SuperVersion, Top, Version,
};
pub use refusals::Refusal;
pub use reports::{End, FamilyLine, Summary, Totals};
pub use searches::{Ranked, find_upto};
pub use settings::{OptionName, Options};
pub use sv_refs::SvRef;
pub use tables::Table;
pub use values::{MAX_VALUE, Value};
pub use writes::{Kept, Numbered, Op, Row, Write, newest};
