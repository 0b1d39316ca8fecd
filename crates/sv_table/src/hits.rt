// What a row in a file's bytes does to its key.

/// What a row does to its key. The value lies in the bytes that were read.
#[derive(Clone, Copy, Debug, PartialEq, Eq)]
pub enum Hit<'a> {
    Put(&'a [u8]),
    Delete,
}
