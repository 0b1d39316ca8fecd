// What a merge takes, by the number of its tables.
ghost use Rattle.std.specs.Prelude.{◌≤◌, ℕ, IfSome, length};
ghost use Rattle.sv_merge.specs.Merging.{Joined, NoneLast};

use crate::faults::Fault;
use crate::samples::{self, Keys};
use std::alloc::Global;
use std::rt::Clock;
use std::time::{Duration, Instant};
use sv_merge::merge;
use sv_model::{Bottom, Kept, Table};
use sv_table::decode;

/// How many rows each round takes in, as far as whole merges come to it.
const ROWS_OF_A_ROUND: u32 = 262_144;

/// Tables of so many rows together, whose ranges join. Their keys are interleaved: of neighbouring keys each stands in
/// another table.
fn interleaved(alloc: Global, rows: u32, count: u32) -> Result<Vec<Table>, Fault> {
    let mut tables = Vec::new(alloc);
    let mut from: u64 = 0;
    for first in 0..count {
        let keys = Keys {
            first,
            step: count,
            count: rows / count.max(1),
        };
        let table = decode(alloc, &samples::text(alloc, from, keys)?)?;
        from = table.to;
        tables.push(table)?;
    }
    Ok(tables)
}

/// Where the range of the last table ends, if each begins where the one before ends and something may lie below each.
fn joined(from: u64, tables: &[Table]) -> Option<u64>
    ensures { IfSome result (λ to. Joined from tables.now to × NoneLast tables.now) }
{
    match tables.split_first() {
        None => Some(from),
        Some((first, others)) => {
            if first.from != from || first.bottom.last {
                return None;
            }
            joined(first.to, others)
        }
    }
}

/// How long so many merges take.
fn timed(rt: &impl Clock, alloc: Global, tables: &[Table], repeats: u32) -> Result<Duration, Fault>
    requires some { 1 ≤ length tables.now }
    requires joined { (from : ℕ) × (to : ℕ) × Joined from tables.now to }
    requires plain { NoneLast tables.now }
{
    let start = Instant::now(rt)?;
    for _ in 0..repeats {
        let merged = merge(alloc, tables, Bottom::plain())?;
        if merged.rows.as_slice().is_empty() {
            return Err(Fault::Wrong);
        }
    }
    Ok(start.elapsed(rt)?)
}

/// The shortest of five rounds of so many merges.
fn best(rt: &impl Clock, alloc: Global, tables: &[Table], repeats: u32) -> Result<Duration, Fault> {
    if tables.is_empty() || joined(0, tables).is_none() {
        return Err(Fault::Wrong);
    }
    let mut best = timed(rt, alloc, tables, repeats)?;
    for _ in 1..5 {
        best = best.min(timed(rt, alloc, tables, repeats)?);
    }
    Ok(best)
}

/// How often two keys are compared where the rows of these tables are gathered and sorted as a merge does it.
fn comparisons(alloc: Global, tables: &[Table]) -> Result<u64, Fault> {
    let mut rows: Vec<&Kept> = Vec::new(alloc);
    for table in tables {
        for row in table.rows.as_slice() {
            rows.push(row)?;
        }
    }
    rows.reverse();
    let mut count: u64 = 0;
    rows.sort_by(|a, b| {
        count = count.saturating_add(1);
        a.row.key.cmp(&b.row.key)
    })?;
    Ok(count)
}

/// Prints what a row takes in a merge of so many tables, which have so many rows together.
pub fn of_tables(
    rt: &(impl Clock + Print),
    alloc: Global,
    rows: u32,
    count: u32,
) -> Result<(), Fault> {
    let tables = interleaved(alloc, rows, count)?;
    let repeats = (ROWS_OF_A_ROUND / rows.max(1)).max(1);
    let took = best(rt, alloc, tables.as_slice(), repeats)?;
    let nanos = u64::try_from(took.as_nanos()).unwrap_or(u64::MAX).max(1);
    let done = (u64::from(rows) * u64::from(repeats)).max(1);
    let rate = done.saturating_mul(1_000_000_000) / nanos;
    let each = nanos / done;
    // Tenths, rounded up.
    let compared = comparisons(alloc, tables.as_slice())?
        .saturating_mul(10)
        .div_ceil(u64::from(rows.max(1)));
    let (whole, tenths) = (compared / 10, compared % 10);
    println!(rt;
        "merge of {count} tables, rows {rows}: {rate} rows a second, {each} ns and {whole}.{tenths} comparisons a row"
    )?;
    Ok(())
}
