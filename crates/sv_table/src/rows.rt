// Reading a row.
ghost use Rattle.std.specs.Prelude.{◌≡◌, ◌&&◌, []};
ghost use Rattle.sv_model.specs.TableTextFields.{start, key_fits, number_fits, mark_fits};
ghost use Rattle.sv_table.specs.Reading.{key_at, end_at, value_at, op_at, entry_at, see_entry, shape_of};
ghost use Rattle.sv_table.specs.Views.{Gives, header_is, shape_is, seen_is, op_is, entry_is};

use crate::faults::Stuck;
use crate::fields::{byte_at, bytes_at, u16_at};
use crate::formats::{Format, has_cuts};
use crate::headers::{Header, is_length};
use crate::hits::Hit;
use crate::key_order::order_bytes;
use std::cmp::Ordering;

/// How the rows of a file are written.
#[derive(Clone, Copy)]
pub(crate) struct Shape {
    pub(crate) format: Format,
    /// Nothing lies below them.
    pub(crate) last: bool,
    /// How many cuts there are.
    pub(crate) cuts: usize,
}

/// What a row's rules look back at. Before the first row both keys are empty.
#[derive(Clone, Copy)]
pub(crate) struct Seen<'a> {
    /// The first row's key.
    pub(crate) first: &'a [u8],
    /// The key of the row before, the number of its end, and whether it is a delete.
    pub(crate) key: &'a [u8],
    pub(crate) number: u8,
    pub(crate) deleted: bool,
}

/// A row as it lies in the bytes, with the number of its end.
#[derive(Clone, Copy)]
pub(crate) struct RowAt<'a> {
    pub(crate) key: &'a [u8],
    pub(crate) number: u8,
    pub(crate) op: Hit<'a>,
}

pub(crate) fn shape_of(header: &Header) -> Shape
    ensures { shape_is result ≡ shape_of (header_is header.now) }
{
    Shape {
        format: header.format,
        last: header.bottom.last,
        cuts: header.bottom.cuts.as_slice().len(),
    }
}

pub(crate) fn start<'a>() -> Seen<'a>
    ensures { seen_is result ≡ start }
{
    Seen {
        first: &[],
        key: &[],
        number: 0,
        deleted: false,
    }
}

/// One more row was seen.
#[inline(always)]
pub(crate) fn see<'a>(seen: Seen<'a>, row: RowAt<'a>) -> Seen<'a>
    ensures { seen_is result ≡ see_entry (seen_is seen.entry) (entry_is row.entry) }
{
    let first = if seen.first.is_empty() {
        row.key
    } else {
        seen.first
    };
    Seen {
        first,
        key: row.key,
        number: row.number,
        deleted: matches!(row.op, Hit::Delete),
    }
}

/// Whether an older row of the key has to follow.
#[inline(always)]
fn is_open(shape: Shape, seen: Seen<'_>) -> bool
    ensures { result ≡ (shape.last && seen.entry.deleted) }
{
    shape.last && seen.deleted
}

#[inline(always)]
fn key_fits(shape: Shape, seen: Seen<'_>, key: &[u8]) -> bool
    ensures { result ≡ key_fits (shape_is shape) (seen_is seen.entry) key.now }
{
    let order = order_bytes(seen.key, key);
    if !has_cuts(shape.format) {
        return order.is_lt();
    }
    match order {
        Ordering::Less => !is_open(shape, seen),
        Ordering::Equal => true,
        Ordering::Greater => false,
    }
}

#[tactic(auto, unfolding(crate::specs::Reading::key_at))]
#[inline(always)]
fn key_at<'a>(shape: Shape, seen: Seen<'_>, bytes: &'a [u8]) -> Result<(&'a [u8], &'a [u8]), Stuck>
    ensures { Gives (λ x. (x.0.now, x.1.now)) result (key_at (shape_is shape) (seen_is seen.entry) bytes.now) }
{
    let (len, after_len) = byte_at(bytes)?;
    if !is_length(len) {
        return Err(Stuck { left: bytes.len() });
    }
    let (key, rest) = bytes_at(usize::from(len), after_len)?;
    if !key_fits(shape, seen, key) {
        return Err(Stuck {
            left: after_len.len(),
        });
    }
    Ok((key, rest))
}

#[inline(always)]
fn number_fits(shape: Shape, seen: Seen<'_>, key: &[u8], number: u8) -> bool
    ensures { result ≡ number_fits (shape_is shape) (seen_is seen.entry) key.now number }
{
    usize::from(number) <= shape.cuts
        && (order_bytes(seen.key, key).is_ne() || number < seen.number)
}

/// The number of a row's end; 0 where ends are not written.
#[tactic(auto, unfolding(crate::specs::Reading::end_at))]
#[inline(always)]
fn end_at<'a>(
    shape: Shape,
    seen: Seen<'_>,
    key: &[u8],
    bytes: &'a [u8],
) -> Result<(u8, &'a [u8]), Stuck>
    ensures { Gives (λ x. (x.0, x.1.now)) result (end_at (shape_is shape) (seen_is seen.entry) key.now bytes.now) }
{
    if !has_cuts(shape.format) {
        return Ok((0, bytes));
    }
    let (number, rest) = byte_at(bytes)?;
    if !number_fits(shape, seen, key, number) {
        return Err(Stuck { left: bytes.len() });
    }
    Ok((number, rest))
}

#[tactic(auto, unfolding(crate::specs::Reading::value_at))]
#[inline(always)]
fn value_at(bytes: &[u8]) -> Result<(&[u8], &[u8]), Stuck>
    ensures { Gives (λ x. (x.0.now, x.1.now)) result (value_at bytes.now) }
{
    let (len, after_len) = u16_at(bytes)?;
    if len > 1024 {
        return Err(Stuck { left: bytes.len() });
    }
    bytes_at(usize::from(len), after_len)
}

/// Whether a delete may stand before so many rows, and else only a put.
#[inline(always)]
fn mark_fits(shape: Shape, left: u32, mark: u8) -> bool
    ensures { result ≡ mark_fits (shape_is shape) left mark }
{
    mark == 1 || (mark == 0 && !(shape.last && (!has_cuts(shape.format) || left == 0)))
}

#[tactic(auto, unfolding(crate::specs::Reading::op_at))]
#[inline(always)]
fn op_at(shape: Shape, left: u32, bytes: &[u8]) -> Result<(Hit<'_>, &[u8]), Stuck>
    ensures { Gives (λ x. (op_is x.0, x.1.now)) result (op_at (shape_is shape) left bytes.now) }
{
    let (mark, after_mark) = byte_at(bytes)?;
    if !mark_fits(shape, left, mark) {
        return Err(Stuck { left: bytes.len() });
    }
    if mark != 1 {
        return Ok((Hit::Delete, after_mark));
    }
    let (value, rest) = value_at(after_mark)?;
    Ok((Hit::Put(value), rest))
}

/// A row after which `left` more are to come, and the bytes after it.
#[tactic(auto, unfolding(crate::specs::Reading::entry_at))]
#[inline(always)]
pub(crate) fn entry_at<'a>(
    shape: Shape,
    left: u32,
    seen: Seen<'_>,
    bytes: &'a [u8],
) -> Result<(RowAt<'a>, &'a [u8]), Stuck>
    ensures { Gives (λ x. (entry_is x.0, x.1.now)) result (entry_at (shape_is shape) left (seen_is seen.entry) bytes.now) }
{
    let (key, after_key) = key_at(shape, seen, bytes)?;
    let (number, after_number) = end_at(shape, seen, key, after_key)?;
    let (op, rest) = op_at(shape, left, after_number)?;
    Ok((RowAt { key, number, op }, rest))
}
