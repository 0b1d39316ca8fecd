// What a store is opened from: its families, with their files and the writes that those files keep.
use crate::ids::FileNumber;
use crate::names::Name;
use crate::records::FileMeta;
use crate::settings::Options;
use crate::writes::Row;

/// A store that was kept.
#[derive(Drop, Debug)]
pub struct Opening {
    /// No file has a number from here on.
    pub next: FileNumber,
    /// By id; the first is `default`.
    pub families: Vec<OpenFamily>,
}

/// A family that was kept.
#[derive(Drop, Debug)]
pub struct OpenFamily {
    pub name: Name,
    pub options: Options,
    /// The oldest first.
    pub files: Vec<FileMeta>,
    /// As many as the files cover.
    pub writes: Vec<Row>,
}
