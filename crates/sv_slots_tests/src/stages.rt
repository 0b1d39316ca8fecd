// What the books of the tests come to.

/// How far the books are: as they were at the opening; with one SuperVersion more of family 0; with its first one Gone
/// besides; or with no current of family 0.
#[derive(Clone, Copy, Debug, PartialEq, Eq)]
pub enum Stage {
    Opened,
    Installed,
    Cleaned,
    Ended,
}
