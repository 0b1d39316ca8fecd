// The value that an op leaves.
ghost use Rattle.std.specs.Prelude.{◌≡◌, IfOk, option_and_then};
ghost use Rattle.sv_model.specs.Journal.{value_of};

use sv_model::{Op, OutOfMemory, Value};

/// A copy of the value that an op leaves; none after a delete.
pub fn value_left(op: &Op) -> Result<Option<Value>, OutOfMemory>
    ensures { IfOk result (λ value. value ≡ value_of op.now) }
{
    match op {
        Op::Put(value) => Ok(Some(value.clone()?)),
        Op::Delete => Ok(None),
    }
}

/// The value that an op leaves; none after a delete, and where there is no op. Takes no memory.
pub fn into_value(op: Option<Op>) -> Option<Value>
    ensures { result ≡ option_and_then value_of op }
{
    match op {
        Some(Op::Put(value)) => Some(value),
        Some(Op::Delete) => None,
        None => None,
    }
}
