// The places of a file's rows, and looking up a key by them.
ghost use Rattle.std.specs.Prelude.{◌≡◌, ◌≤◌, ◌++◌, ℕ, List, Ok, IfOk, length, true, false};
ghost use Rattle.std.specs.List.Sorted.{IsPartitionPoint};
ghost use Rattle.sv_model.specs.declared.writes.Kept.{Kept};
ghost use Rattle.sv_model.specs.Order.{OrderedBy, is_ahead, key_of_kept, end_of_kept};
ghost use Rattle.sv_table.specs.Lookups.{hit_op, op_upto};
ghost use Rattle.sv_table.specs.Places.{Stands, HasRowAt, ArePlaces, HasPlaces};
ghost use Rattle.sv_table.specs.Reading.{HasRows, entries_in, kept_in, kept_of};
ghost use Rattle.sv_table.specs.Views.{header_is, entry_is};

use crate::headers::Header;
use crate::hits::Hit;
use crate::key_order::order_bytes;
use crate::lookups::end_of;
use crate::rows::{RowAt, entry_at, see, shape_of, start};
use std::alloc::Global;
use std::cmp::Ordering;
use sv_model::OutOfMemory;

/// The places in the bytes of the rows that stand at the front of these, which are the last of the bytes.
pub(crate) fn places_of(
    alloc: Global,
    header: &Header,
    bytes: &[u8],
    rows: &[u8],
) -> Result<Vec<usize>, OutOfMemory>
    requires rows { HasRows (header_is header.now) rows.now }
    requires last { (front : List ℕ) × (bytes.now ≡ front ++ rows.now) }
    ensures { let h = header_is header.now in IfOk result (λ places. (all : List Kept) → kept_in h (entries_in h rows.now) ≡ Ok all → ArePlaces h bytes.now places.items all) }
{
    let shape = shape_of(header);
    let count = header.count;
    let mut places = Vec::new(alloc);
    let mut seen = start();
    let mut rest = rows;
    for i in 0..count {
        let Ok((row, after)) = entry_at(shape, count - 1 - i, seen, rest) else {
            unreachable!();
        };
        places.push(bytes.len() - rest.len())?;
        seen = see(seen, row);
        rest = after;
    }
    Ok(places)
}

/// The row at this place.
fn row_of<'a>(header: &Header, bytes: &'a [u8], place: usize) -> RowAt<'a>
    requires { HasRowAt (header_is header.now) bytes.now place }
    ensures row { (r : Kept) → Stands (header_is header.now) bytes.now place r → kept_of (header_is header.now) (entry_is result) ≡ r }
    ensures number { result.number ≤ length header.now.bottom.cuts }
{
    match entry_at(shape_of(header), 1, start(), &bytes[place..]) {
        Ok((row, _)) => row,
        Err(_) => unreachable!(),
    }
}

/// Whether the row stands ahead of the key's rows whose end is at most the cut.
fn is_ahead(header: &Header, row: RowAt<'_>, key: &[u8], cut: u64) -> bool
    requires { row.number ≤ length header.now.bottom.cuts }
    ensures { result ≡ is_ahead key_of_kept end_of_kept key.now cut (kept_of (header_is header.now) (entry_is row.entry)) }
{
    match order_bytes(row.key, key) {
        Ordering::Less => true,
        Ordering::Equal => end_of(header, row.number) > cut,
        Ordering::Greater => false,
    }
}

/// How many rows stand ahead of the key's rows whose end is at most the cut.
fn ahead_of(header: &Header, bytes: &[u8], places: &[usize], key: &[u8], cut: u64) -> usize
    requires { HasPlaces (header_is header.now) bytes.now places.now }
    ensures bound { result ≤ length places.now }
    ensures parted { (rows : List Kept) → ArePlaces (header_is header.now) bytes.now places.now rows → OrderedBy key_of_kept end_of_kept rows → IsPartitionPoint (λ r. is_ahead key_of_kept end_of_kept key.now cut r ≡ true) (λ r. is_ahead key_of_kept end_of_kept key.now cut r ≡ false) rows result }
{
    let mut low: usize = 0;
    let mut high = places.len();
    while low < high {
        let middle = low + (high - low) / 2;
        let row = row_of(header, bytes, places[middle]);
        if is_ahead(header, row, key, cut) {
            low = middle + 1;
        } else {
            high = middle;
        }
    }
    low
}

/// What the first row of the key does whose end is at most the cut.
pub(crate) fn find_row<'a>(
    header: &Header,
    bytes: &'a [u8],
    places: &[usize],
    key: &[u8],
    cut: u64,
) -> Option<Hit<'a>>
    requires { HasPlaces (header_is header.now) bytes.now places.now }
    ensures { (rows : List Kept) → ArePlaces (header_is header.now) bytes.now places.now rows → OrderedBy key_of_kept end_of_kept rows → hit_op result ≡ op_upto key.now cut rows }
{
    let at = ahead_of(header, bytes, places, key, cut);
    if at == places.len() {
        return None;
    }
    let row = row_of(header, bytes, places[at]);
    if order_bytes(key, row.key).is_eq() {
        Some(row.op)
    } else {
        None
    }
}
