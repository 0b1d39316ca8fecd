// The rows of frozen memtables with the numbers of their writes.
ghost use Rattle.std.specs.Prelude.{◌≡◌, ◌+◌, ◌<◌, ◌^◌, ◌++◌, length, map, IfOk, OnOk};
ghost use Rattle.std.specs.List.{AllByRecursion};
ghost use Rattle.std.specs.List.Sorted.{IsPermutation};
ghost use Rattle.sv_model.specs.Flat.{numbered_after};
ghost use Rattle.sv_outputs.specs.Flushing.{moved_on, rows_in};

use std::alloc::Global;
use std::sync::Arc;
use sv_memtable::Frozen;
use sv_model::{Numbered, OutOfMemory};

// Appends copies of the rows, each with its number moved on.
fn append_rows(
    rows: &mut Vec<Numbered>,
    frozen: &[Numbered],
    before: u64,
) -> Result<(), OutOfMemory>
    requires { AllByRecursion (λ n. before + n.number < 2 ^ 64) frozen.now }
    ensures { OnOk result (rows.new.items ≡ rows.old.items ++ map (moved_on before) frozen.now) }
{
    for numbered in frozen {
        let row = numbered.row.clone()?;
        rows.push(Numbered {
            number: before + numbered.number,
            row,
        })?;
    }
    Ok(())
}

// Copies of the rows of all the memtables, the oldest first, each with the number of its write, from `from + 1` on.
pub(crate) fn all_rows(
    alloc: Global,
    frozen: &[(u8, Arc<Frozen>)],
    from: u64,
) -> Result<Vec<Numbered>, OutOfMemory>
    requires { from + length (rows_in frozen.now) < 2 ^ 64 }
    ensures { IfOk result (λ rows. IsPermutation (numbered_after from (rows_in frozen.now)) rows.items) }
{
    let mut rows = Vec::new(alloc);
    for member in frozen {
        let before = from + rows.len() as u64;
        append_rows(&mut rows, member.1.rows(), before)?;
    }
    Ok(rows)
}
