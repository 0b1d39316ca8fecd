// Merging tables of joined ranges into one.
ghost use Rattle.std.specs.Prelude.{◌≡◌, ◌≤◌, ◌<◌, ◌-◌, ◌^◌, ℕ, false, ◌++◌, List, length, map, drop, IfOk};
ghost use Rattle.std.specs.List.Sorted.{IsNonDecreasing};
ghost use Rattle.sv_model.specs.declared.writes.Write.{Write};
ghost use Rattle.sv_model.specs.Flat.{IsFlat};
ghost use Rattle.sv_model.specs.TableText.{IsWellFormed};
ghost use Rattle.sv_merge.specs.Placing.{kepts_of};
ghost use Rattle.sv_merge.specs.Merging.{Joined, JoinedWith, NoneLast, EachClear, AreWellFormed, newest_rows, moved, IsMergeOf, AreFlats, InOrder};

use crate::placing::{Placed, end_among, kept_rows};
use std::alloc::Global;
use sv_model::{Bottom, Items, Kept, OutOfMemory, Table};

/// The rows, and then these, each under the end that it comes to bear.
fn with_rows<'a>(
    rows: Vec<Placed<'a>>,
    more: &'a [Kept],
    cuts: &[u64],
    to: u64,
) -> Result<Vec<Placed<'a>>, OutOfMemory>
    requires { IsNonDecreasing cuts.now }
    ensures { IfOk result (λ v. kepts_of v.items ≡ kepts_of rows.entry.items ++ map (moved cuts.now to) more.now) }
{
    let mut all = rows;
    for kept in more {
        all.push(Placed {
            end: end_among(cuts, to, kept.end),
            row: &kept.row,
        })?;
    }
    Ok(all)
}

/// The rows of all the tables under their new ends, those of the newest table first.
fn gathered<'a>(
    alloc: Global,
    tables: &'a [Table],
    cuts: &[u64],
    to: u64,
) -> Result<Vec<Placed<'a>>, OutOfMemory>
    requires { IsNonDecreasing cuts.now }
    ensures { IfOk result (λ v. kepts_of v.items ≡ map (moved cuts.now to) (newest_rows tables.now)) }
{
    let mut rows = Vec::new(alloc);
    for table in tables.iter().rev() {
        rows = with_rows(rows, table.rows.as_slice(), cuts, to)?;
    }
    Ok(rows)
}

/// The rows by key; those of one key keep their order.
fn in_order<'a>(rows: Vec<Placed<'a>>) -> Result<Vec<Placed<'a>>, OutOfMemory>
    ensures { IfOk result (λ v. InOrder (kepts_of rows.entry.items) (kepts_of v.items)) }
{
    let mut rows = rows;
    rows.sort_by(|a, b| a.row.key.cmp(&b.row.key))?;
    Ok(rows)
}

/// One table over the joined range of these: of each key and each interval between the cuts the newest row; where
/// nothing lies below, without each delete under which no put stays. The tables stand oldest first. The sort takes
/// each table's rows, which rise where they were gathered, for one run, and merges neighbouring runs in balanced
/// rounds: n rows of k tables take n * (1 + log k) comparisons, but those of tables of fewer than 64 rows, or than
/// the square root of n, are sorted together. Only the rows that stay are copied.
pub fn merge(alloc: Global, tables: &[Table], bottom: Bottom) -> Result<Table, OutOfMemory>
    requires some { 1 ≤ length tables.now }
    // The ranges join, and the cuts are cuts of the joined range.
    requires joined { JoinedWith bottom.cuts tables.now }
    // Nothing lies below the first alone, if any.
    requires above { NoneLast (drop 1 tables.now) }
    // Of well-formed tables, none was made for the last where something may lie below.
    requires plain { bottom.last ≡ false → AreWellFormed tables.now → NoneLast tables.now }
    // Each cut that lies inside a table's range is one of the table's.
    requires clear { EachClear bottom.cuts tables.now }
    ensures range { IfOk result (λ t. Joined t.from tables.now t.to) }
    ensures bottom { IfOk result (λ t. t.bottom ≡ bottom) }
    ensures rows { IfOk result (λ t. IsMergeOf tables.now t.to bottom t.rows) }
    // Of tables that are the flats of their ranges, it is the flat of the joined range, whatever the journal.
    ensures flat { IfOk result (λ t. (journal : List Write) (family : ℕ) → AreFlats journal family tables.now → (bottom.last ≡ false → NoneLast tables.now) → IsFlat journal family t.from t.to bottom t.rows) }
    // Of well-formed tables it is well formed, if its range has fewer than 2^32 writes, so that its rows can be counted.
    ensures well_formed { IfOk result (λ t. AreWellFormed tables.now → t.to - t.from < 2 ^ 32 → IsWellFormed t.from t.to bottom t.rows) }
{
    let (from, to) = (tables[0].from, tables[tables.len() - 1].to);
    let rows = in_order(gathered(alloc, tables, bottom.cuts.as_slice(), to)?)?;
    let rows = kept_rows(alloc, rows, bottom.last)?;
    Ok(Table {
        from,
        to,
        bottom,
        rows: Items::from_vec(rows),
    })
}
