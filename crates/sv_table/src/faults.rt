// Why bytes are no table.

/// Where a reader stopped: so many bytes are left where the first bad field begins.
#[derive(Clone, Copy, Debug, PartialEq, Eq)]
pub(crate) struct Stuck {
    pub(crate) left: usize,
}

/// The bytes are no table's text: the first field that is cut short or breaks its rule begins at this offset, or,
/// where all fields are right, more bytes follow from there.
#[derive(Clone, Copy, Debug, PartialEq, Eq)]
pub struct Bad {
    pub place: u64,
}

/// Why bytes were not decoded.
#[derive(Clone, Copy, Debug, PartialEq, Eq)]
pub enum DecodeError {
    /// The bytes are no table's text, as `Bad` says.
    Bad { place: u64 },
    /// They are a table's text, and memory was refused.
    OutOfMemory,
}
