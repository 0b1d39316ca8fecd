// Looking in the bytes of a table.
ghost use Rattle.std.specs.Prelude.{◌≡◌, IfOk};
ghost use Rattle.sv_model.specs.TableText.{IsStoredOp};
ghost use Rattle.sv_table.specs.Views.{op_is};
ghost use Rattle.sv_reads.specs.OneFile.{BytesAnswer};

use std::alloc::Global;
use sv_file_checks::find_checked;
use sv_model::{FileMeta, Key, Op, OutOfMemory, Refusal, Value};
use sv_table::Hit;

// A copy of what was found.
fn op_of(alloc: Global, hit: &Hit<'_>) -> Result<Op, OutOfMemory>
    requires { IsStoredOp (op_is hit.now) }
    ensures { IfOk result (λ op. op ≡ op_is hit.now) }
{
    match hit {
        Hit::Delete => Ok(Op::Delete),
        Hit::Put(value) => match Value::new(alloc, value) {
            Ok(value) => Ok(Op::Put(value)),
            Err(Refusal::OutOfMemory) => Err(OutOfMemory),
            Err(_) => unreachable!(),
        },
    }
}

/// A copy of what the bytes of the file tell of the key, at the cut; or they are bad.
pub(crate) fn op_in(
    alloc: Global,
    file: &FileMeta,
    bytes: &[u8],
    key: &Key,
    cut: u64,
) -> Result<Option<Op>, Refusal>
    ensures { BytesAnswer file.now bytes.now key.now cut result }
{
    match find_checked(file, bytes, key, cut) {
        Ok(Some(hit)) => match op_of(alloc, &hit) {
            Ok(op) => Ok(Some(op)),
            Err(OutOfMemory) => Err(Refusal::OutOfMemory),
        },
        Ok(None) => Ok(None),
        Err(refusal) => Err(refusal),
    }
}
