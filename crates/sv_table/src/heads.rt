// Checking a file's bytes.
ghost use Rattle.std.specs.Prelude.{◌≡◌, Err, IfOk, IfErr};
ghost use Rattle.sv_table.specs.Decoding.{IsHeadOf, IsBadFile};
ghost use Rattle.sv_table.specs.Lookups.{IsFoundIn, hit_op};
ghost use Rattle.sv_table.specs.Reading.{file_at};

use crate::faults::{Bad, Stuck};
use crate::headers::Header;
use crate::hits::Hit;
use crate::walks::{file_at, file_for};
use sv_model::{Bottom, Key};

/// What a file says of its table before the rows.
#[derive(Clone, Copy, Debug, PartialEq, Eq)]
pub struct Head {
    /// The table covers the writes `from + 1` to `to` of its family.
    pub from: u64,
    pub to: u64,
    pub bottom: Bottom,
    /// How many rows it has.
    pub count: u32,
}

pub(crate) fn head_of(header: &Header) -> Head
    ensures { let h = header.now in result ≡ record { from = h.from; to = h.to; bottom = h.bottom; count = h.count } }
{
    Head {
        from: header.from,
        to: header.to,
        bottom: header.bottom,
        count: header.count,
    }
}

/// Where the bytes are bad, of which so many are left.
fn bad_of(bytes: &[u8], stuck: Stuck) -> Bad
    requires { file_at bytes.now ≡ Err stuck.left }
    ensures { IsBadFile bytes.now result.place }
{
    Bad {
        place: (bytes.len() - stuck.left) as u64,
    }
}

/// The head of the table of which the bytes are a text; else the offset of the first bad field. Takes no memory, and
/// goes over the bytes once.
pub fn check(bytes: &[u8]) -> Result<Head, Bad>
    ensures head { IfOk result (λ h. IsHeadOf bytes.now h) }
    ensures bad { IfErr result (λ e. IsBadFile bytes.now e.place) }
{
    match file_at(bytes) {
        Ok((header, _)) => Ok(head_of(&header)),
        Err(stuck) => Err(bad_of(bytes, stuck)),
    }
}

/// What `check` says of the bytes; and where they are a table's text, what `find_in` says of the key at the cut. Takes
/// no memory, and goes over the bytes once.
pub fn check_and_find<'a>(
    bytes: &'a [u8],
    key: &Key,
    cut: u64,
) -> Result<(Head, Option<Hit<'a>>), Bad>
    ensures head { IfOk result (λ x. IsHeadOf bytes.now x.0) }
    ensures found { IfOk result (λ x. IsFoundIn bytes.now key.now cut (hit_op x.1)) }
    ensures bad { IfErr result (λ e. IsBadFile bytes.now e.place) }
{
    match file_for(bytes, key.as_bytes(), cut) {
        Ok((header, _, found)) => Ok((head_of(&header), found)),
        Err(stuck) => Err(bad_of(bytes, stuck)),
    }
}
