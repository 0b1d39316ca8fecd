// The text of a compaction's file.
ghost use Rattle.std.specs.Prelude.{IfOk};
ghost use Rattle.sv_outputs.specs.Merging.{AreMergeable, IsMergeText};

use std::alloc::Global;
use sv_merge::merge;
use sv_model::{FileMeta, OutOfMemory, Table};
use sv_table::encode;

// The text of the merge of the tables.
pub(crate) fn merge_text(
    alloc: Global,
    tables: &[Table],
    file: &FileMeta,
) -> Result<Vec<u8>, OutOfMemory>
    requires { AreMergeable tables.now file.now }
    ensures { IfOk result (λ text. IsMergeText tables.now file.now text.items) }
{
    let table = merge(alloc, tables, file.bottom)?;
    encode(alloc, &table)
}
