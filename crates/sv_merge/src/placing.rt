// Rows under the ends that they are to bear, and what of them stays.
ghost use Rattle.std.specs.Prelude.{◌≡◌, reverse, IfOk};
ghost use Rattle.std.specs.List.{dedup};
ghost use Rattle.std.specs.List.Sorted.{IsNonDecreasing};
ghost use Rattle.sv_model.specs.Flat.{end_among};
ghost use Rattle.sv_merge.specs.Placing.{kepts_of, same_place, is_next, thinned};

use std::alloc::Global;
use sv_model::{Kept, Key, OutOfMemory, Row};

/// A row with the end that it is to bear.
#[derive(Clone, Copy)]
pub(crate) struct Placed<'a> {
    pub(crate) end: u64,
    pub(crate) row: &'a Row,
}

/// The first of the cuts that the number does not pass, else the last write.
pub(crate) fn end_among(cuts: &[u64], to: u64, number: u64) -> u64
    requires { IsNonDecreasing cuts.now }
    ensures { result ≡ end_among cuts.now to number }
{
    let at = cuts.partition_point(|cut| *cut < number);
    cuts.get(at).copied().unwrap_or(to)
}

/// Of rows by key, and in one key the newest first, the newest of each end.
fn newest_of_each<'a>(rows: Vec<Placed<'a>>) -> Vec<Placed<'a>>
    ensures { kepts_of result.items ≡ dedup same_place (kepts_of rows.entry.items) }
{
    let mut rows = rows;
    rows.dedup_by(|next, last| next.end == last.end && next.row.key == last.row.key);
    rows
}

/// Whether the last of these rows is of the key.
fn is_of_last(rows: &[Kept], key: &Key) -> bool
    ensures { result ≡ is_next key.now (reverse rows.now) }
{
    match rows.last() {
        None => false,
        Some(last) => last.row.key == *key,
    }
}

/// Copies of the rows; where nothing lies below, without each delete of whose key no older row stays.
fn thinned(alloc: Global, rows: &[Placed], last: bool) -> Result<Vec<Kept>, OutOfMemory>
    ensures { IfOk result (λ v. v.items ≡ thinned last (kepts_of rows.now)) }
{
    let mut kept = Vec::new(alloc);
    for placed in rows.iter().rev() {
        if last && placed.row.op.is_delete() && !is_of_last(&kept, &placed.row.key) {
            continue;
        }
        let row = placed.row.clone()?;
        kept.push(Kept {
            end: placed.end,
            row,
        })?;
    }
    kept.reverse();
    Ok(kept)
}

/// The rows of a table: of rows by key, and in one key the newest first, the newest of each end; where nothing lies
/// below, without each delete under which no put stays. Only the rows that stay are copied.
pub(crate) fn kept_rows<'a>(
    alloc: Global,
    rows: Vec<Placed<'a>>,
    last: bool,
) -> Result<Vec<Kept>, OutOfMemory>
    ensures { IfOk result (λ v. v.items ≡ thinned last (dedup same_place (kepts_of rows.entry.items))) }
{
    thinned(alloc, &newest_of_each(rows), last)
}
