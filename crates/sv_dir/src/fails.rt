// Which calls of a directory in memory are to fail, and how.

/// How a call fails.
#[derive(Clone, Copy, Debug, PartialEq, Eq)]
pub enum How {
    /// It does nothing.
    Before,
    /// A put stores the first half of the bytes, rounded down; other calls do nothing.
    Half,
    /// It does its work first.
    After,
}

/// The call of that number fails. Calls are counted from 1, all four kinds together.
#[derive(Clone, Copy, Debug, PartialEq, Eq)]
pub struct Fail {
    pub call: u64,
    pub how: How,
}
