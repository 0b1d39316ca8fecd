// Building a table from the writes of a range.
ghost use Rattle.std.specs.Prelude.{◌≡◌, ◌+◌, false, List, length, map, IfOk};
ghost use Rattle.std.specs.List.Sorted.{IsNonDecreasing, IsPermutation};
ghost use Rattle.sv_model.specs.declared.writes.Row.{Row};
ghost use Rattle.sv_model.specs.Flat.{numbered_after, IsFlatOf, AreCuts};
ghost use Rattle.sv_merge.specs.Placing.{kepts_of};
ghost use Rattle.sv_merge.specs.Building.{IsNewestFirst, placed};

use crate::placing::{Placed, end_among, kept_rows};
use std::alloc::Global;
use sv_model::{Bottom, Items, Numbered, OutOfMemory, Table};

/// The rows by key, and in one key the newest first.
fn newest_first<'a>(alloc: Global, rows: &'a [Numbered]) -> Result<Vec<&'a Numbered>, OutOfMemory>
    ensures { IfOk result (λ v. IsNewestFirst rows.now (map (λ n. n.now) v.items)) }
{
    let mut sorted = Vec::new(alloc);
    for row in rows {
        sorted.push(row)?;
    }
    sorted.sort_by(|a, b| a.row.key.cmp(&b.row.key).then(b.number.cmp(&a.number)))?;
    Ok(sorted)
}

/// The rows, each under the end of its interval.
fn placed<'a>(
    alloc: Global,
    rows: &[&'a Numbered],
    cuts: &[u64],
    to: u64,
) -> Result<Vec<Placed<'a>>, OutOfMemory>
    requires { IsNonDecreasing cuts.now }
    ensures { IfOk result (λ v. kepts_of v.items ≡ map (placed cuts.now to) (map (λ n. n.now) rows.now)) }
{
    let mut all = Vec::new(alloc);
    for &numbered in rows {
        all.push(Placed {
            end: end_among(cuts, to, numbered.number),
            row: &numbered.row,
        })?;
    }
    Ok(all)
}

/// The table of the writes `from + 1` to `to` of a family: of each key and each interval between the cuts the newest.
/// The rows are those writes, each once, in any order; they take about n * log n comparisons, and n where they stand
/// by key, in one key the newest first. Only the rows that stay are copied.
pub fn build(
    alloc: Global,
    rows: &[Numbered],
    from: u64,
    to: u64,
    bottom: Bottom,
) -> Result<Table, OutOfMemory>
    requires writes { (writes : List Row) × (from + length writes ≡ to) × IsPermutation (numbered_after from writes) rows.now }
    requires cuts { AreCuts from to bottom.cuts }
    requires last { bottom.last ≡ false }
    ensures range { IfOk result (λ t. (t.from ≡ from) × (t.to ≡ to) × (t.bottom ≡ bottom)) }
    ensures flat { IfOk result (λ t. (writes : List Row) → IsPermutation (numbered_after from writes) rows.now → IsFlatOf from to bottom writes t.rows) }
{
    let cuts = bottom.cuts.as_slice();
    let sorted = newest_first(alloc, rows)?;
    let rows = kept_rows(alloc, placed(alloc, &sorted, cuts, to)?, bottom.last)?;
    Ok(Table {
        from,
        to,
        bottom,
        rows: Items::from_vec(rows),
    })
}
