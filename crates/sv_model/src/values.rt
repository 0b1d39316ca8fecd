// A value, seen by contracts as its bytes.
ghost use Rattle.std.specs.Prelude.{◌≡◌, ◌≤◌, ℕ, List, IfOk, length};
ghost use Rattle.sv_model.specs.Refusals.{Refuses, value_refusal};

use crate::refusals::Refusal;
use std::alloc::{AllocError, Global};
use std::marker::Model;

/// The greatest number of bytes of a value.
pub const MAX_VALUE: usize = 1024;

/// A value: 0 to 1,024 bytes, in the memory of its bytes.
#[derive(Drop, Debug)]
pub struct Value {
    bytes: Vec<u8>,
}

impl Model for Value {
    ghost use Rattle.std.specs.Prelude.{ℕ, List, length, ◌≤◌};

    ghost Value = { List ℕ };

    ghost view = { λ v. v.bytes.items };

    ghost invariant = { λ v. length v.bytes.items ≤ 1024 };
}

impl Value {
    /// The value of these bytes. Refused as `ValueLength` exactly where they are more than 1,024.
    pub fn new(alloc: Global, bytes: &[u8]) -> Result<Value, Refusal>
        ensures made { IfOk result (λ value. value ≡ bytes.now) }
        ensures refused { Refuses (value_refusal (length bytes.now)) result }
    {
        if bytes.len() > MAX_VALUE {
            return Err(Refusal::ValueLength {
                length: bytes.len() as u64,
            });
        }
        match bytes.to_vec(alloc) {
            Ok(bytes) => Ok(Value { bytes }),
            Err(_) => Err(Refusal::OutOfMemory),
        }
    }

    /// The bytes.
    pub fn as_bytes(&self) -> &[u8]
        ensures bytes { result.now ≡ self.now }
        ensures greatest { length self.now ≤ 1024 }
    {
        self.bytes.as_slice()
    }
}

impl Clone for Value {
    ghost is_clone = { λ value copy. copy ≡ value };

    fn clone(&self) -> Result<Value, AllocError> {
        let alloc = *self.bytes.allocator();
        let bytes = self.bytes.as_slice().to_vec(alloc)?;
        Ok(Value { bytes })
    }
}
