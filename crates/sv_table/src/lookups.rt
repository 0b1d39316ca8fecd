// Looking up a key in a file's bytes.
ghost use Rattle.std.specs.Prelude.{◌≡◌, ◌≤◌, ◌&&◌, length, nat_le, slice_index};
ghost use Rattle.sv_model.specs.Flat.{ends_of};
ghost use Rattle.sv_model.specs.Journal.{same_key};
ghost use Rattle.sv_model.specs.TableText.{IsTableFile};
ghost use Rattle.sv_table.specs.Lookups.{IsFoundIn, hit_op, hit_here, found_in, found_then};
ghost use Rattle.sv_table.specs.Reading.{HasRows, entries_in, kept_of};
ghost use Rattle.sv_table.specs.Views.{header_is, entry_is};

use crate::headers::{Header, header_at};
use crate::hits::Hit;
use crate::key_order::order_bytes;
use crate::rows::{RowAt, entry_at, see, shape_of, start};
use sv_model::Key;

/// The end of this number: a cut, or after the cuts the last write.
pub(crate) fn end_of(header: &Header, number: u8) -> u64
    requires { number ≤ length header.now.bottom.cuts }
    ensures { result ≡ slice_index (ends_of header.now.bottom.cuts header.now.to) number }
{
    let cuts = header.bottom.cuts.as_slice();
    if usize::from(number) < cuts.len() {
        cuts[usize::from(number)]
    } else {
        header.to
    }
}

/// Whether the row is of the key, and its end at most the cut.
#[inline(always)]
fn answers(header: &Header, row: RowAt<'_>, key: &[u8], cut: u64) -> bool
    requires { row.number ≤ length header.now.bottom.cuts }
    ensures { let kept = kept_of (header_is header.now) (entry_is row.entry) in result ≡ (same_key key.now kept.row.key && nat_le kept.end cut) }
{
    order_bytes(key, row.key).is_eq() && end_of(header, row.number) <= cut
}

/// What was found before the row; else what the row does, where it answers.
#[inline(always)]
pub(crate) fn first_hit<'a>(
    header: &Header,
    found: Option<Hit<'a>>,
    row: RowAt<'a>,
    key: &[u8],
    cut: u64,
) -> Option<Hit<'a>>
    requires { row.number ≤ length header.now.bottom.cuts }
    ensures { let h = header_is header.now in hit_op result ≡ found_then (hit_op found.entry) (hit_here h key.now cut (entry_is row.entry)) }
{
    match found {
        Some(hit) => Some(hit),
        None if answers(header, row, key, cut) => Some(row.op),
        None => None,
    }
}

fn find_row<'a>(header: &Header, bytes: &'a [u8], key: &[u8], cut: u64) -> Option<Hit<'a>>
    requires { HasRows (header_is header.now) bytes.now }
    ensures { let h = header_is header.now in hit_op result ≡ found_in h key.now cut (entries_in h bytes.now) }
{
    let shape = shape_of(header);
    let count = header.count;
    let mut seen = start();
    let mut rest = bytes;
    for i in 0..count {
        let Ok((row, after)) = entry_at(shape, count - 1 - i, seen, rest) else {
            unreachable!();
        };
        if answers(header, row, key, cut) {
            return Some(row.op);
        }
        seen = see(seen, row);
        rest = after;
    }
    None
}

/// What the first row of the key does whose end is at most the cut, in the table of which the bytes are a text; none
/// where there is no such row. Takes no memory, and goes over the bytes once.
pub fn find_in<'a>(bytes: &'a [u8], key: &Key, cut: u64) -> Option<Hit<'a>>
    requires { IsTableFile bytes.now }
    ensures { IsFoundIn bytes.now key.now cut (hit_op result) }
{
    let Ok((header, rows)) = header_at(bytes) else {
        unreachable!();
    };
    find_row(&header, rows, key.as_bytes(), cut)
}
