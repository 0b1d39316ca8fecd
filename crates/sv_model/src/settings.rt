// The options of a column family.
/// When a memtable is switched, and how many immutable ones a family may have.
#[derive(Clone, Copy, Debug, PartialEq, Eq)]
pub struct Options {
    /// The rows of the active memtable from which on a write switches first: 1 to 65,536.
    pub memtable_rows: u32,
    /// The immutable memtables from which on a write that is to switch is refused: 1 to 8.
    pub max_immutable: u8,
}

impl Options {
    /// The options of a new family.
    pub const FIRST: Options = Options {
        memtable_rows: 1024,
        max_immutable: 2,
    };
}

/// The name of an option.
#[derive(Clone, Copy, Debug, PartialEq, Eq)]
pub enum OptionName {
    MemtableRows,
    MaxImmutable,
}
