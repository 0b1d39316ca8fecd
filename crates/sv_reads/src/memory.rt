// Looking in memtables.
ghost use Rattle.std.specs.Prelude.{◌≡◌, length, take};
ghost use Rattle.std.specs.Arc.{arc_value};
ghost use Rattle.std.specs.Option.{option_copied};
ghost use Rattle.sv_model.specs.Journal.{newest_op};
ghost use Rattle.sv_objects.specs.Shown.{shown};
ghost use Rattle.sv_reads.specs.Parts.{FindsAfter, FindsBefore};

use std::sync::Arc;
use sv_memtable::{Frozen, MemCell};
use sv_model::{Key, Op, find_upto};
use sv_objects::Body;

/// What the newest row of the key at or below the cut does, in the active memtable, of which the rows are those of the
/// writes after `base`; none where it has no such row. Takes no memory.
pub fn find_active<'a>(cell: &'a MemCell, base: u64, key: &Key, cut: u64) -> Option<&'a Op>
    ensures { FindsAfter base cell.now.rows key.now cut (option_copied result) }
{
    let upto = cut.saturating_sub(base).min(u64::from(cell.len()));
    cell.find_at(key, upto as u32)
}

// What the newest row of the key does among so many first rows.
fn find_among<'a>(frozen: &'a Frozen, key: &Key, upto: u64) -> Option<&'a Op>
    ensures { option_copied result ≡ newest_op key.now (take upto frozen.now.rows) }
{
    match find_upto(frozen.rows(), key, upto) {
        Some(numbered) => Some(&numbered.row.op),
        None => None,
    }
}

// How many rows it has.
fn count_rows(frozen: &Frozen) -> u64
    ensures { result ≡ length frozen.now.rows }
{
    frozen.rows().len() as u64
}

// The memtable, without its cell.
fn frozen_of(held: &(u8, Arc<Frozen>)) -> &Frozen
    ensures { result.now ≡ arc_value held.now.1 }
{
    &held.1
}

/// What the newest row of the key at or below the cut does, in the frozen memtables of the body, of which the rows are
/// those of the writes before the active memtable; none where they have no such row. The newest memtable is looked in
/// first. Takes no memory.
pub fn find_frozen<'a>(body: &'a Body, key: &Key, cut: u64) -> Option<&'a Op>
    ensures { FindsBefore body.now.descriptor.base (shown body.now.frozen) key.now cut (option_copied result) }
{
    let mut left = body.frozen.as_slice();
    let mut end = body.descriptor.base;
    while let [older @ .., held] = left {
        let frozen = frozen_of(held);
        let begin = end.saturating_sub(count_rows(frozen));
        if let Some(op) = find_among(frozen, key, cut.saturating_sub(begin)) {
            return Some(op);
        }
        left = older;
        end = begin;
    }
    None
}
