// A key, seen by contracts as its bytes and ordered by them.
ghost use Rattle.std.specs.Prelude.{◌≡◌, ◌≤◌, ℕ, List, IfOk, length};
ghost use Rattle.std.specs.Ordering.{nat_cmp, eq_by_cmp, as_partial_cmp};
ghost use Rattle.std.specs.Cmp.{partial_order_from_total, partial_equiv_from_equiv, eq_by_cmp_equiv};
ghost use Rattle.std.specs.Cmp.Lexicographic.{slice_cmp, nat_list_cmp_total};
ghost use Rattle.std.proofs.Common.{refl};
ghost use Rattle.sv_model.specs.Refusals.{Refuses, key_refusal};

use crate::refusals::Refusal;
use std::alloc::{AllocError, Global};
use std::cmp::Ordering;
use std::marker::Model;

/// The greatest number of bytes of a key.
pub const MAX_KEY: usize = 64;

/// A key: 1 to 64 bytes, in the memory of its bytes. Keys are ordered by their bytes, a prefix first.
#[derive(Drop, Debug)]
pub struct Key {
    bytes: Vec<u8>,
}

impl Model for Key {
    ghost use Rattle.std.specs.Prelude.{ℕ, List, length, ◌≤◌};

    ghost Value = { List ℕ };

    ghost view = { λ k. k.bytes.items };

    ghost invariant = { λ k. (1 ≤ length k.bytes.items) × (length k.bytes.items ≤ 64) };
}

impl Key {
    /// The key of these bytes. Refused as `KeyLength` exactly where they are not 1 to 64.
    pub fn new(alloc: Global, bytes: &[u8]) -> Result<Key, Refusal>
        ensures made { IfOk result (λ key. key ≡ bytes.now) }
        ensures refused { Refuses (key_refusal (length bytes.now)) result }
    {
        if bytes.is_empty() || bytes.len() > MAX_KEY {
            return Err(Refusal::KeyLength {
                length: bytes.len() as u64,
            });
        }
        match bytes.to_vec(alloc) {
            Ok(bytes) => Ok(Key { bytes }),
            Err(_) => Err(Refusal::OutOfMemory),
        }
    }

    /// The bytes.
    pub fn as_bytes(&self) -> &[u8]
        ensures bytes { result.now ≡ self.now }
        ensures least { 1 ≤ length self.now }
        ensures greatest { length self.now ≤ 64 }
    {
        self.bytes.as_slice()
    }
}

impl Clone for Key {
    ghost is_clone = { λ key copy. copy ≡ key };

    fn clone(&self) -> Result<Key, AllocError> {
        let alloc = *self.bytes.allocator();
        let bytes = self.bytes.as_slice().to_vec(alloc)?;
        Ok(Key { bytes })
    }
}

impl PartialEq for Key {
    ghost eq = { eq_by_cmp (slice_cmp nat_cmp) };

    ghost laws = { partial_equiv_from_equiv (eq_by_cmp_equiv nat_list_cmp_total) };

    fn eq(&self, other: &Key) -> bool {
        self.cmp(other).is_eq()
    }
}

impl Eq for Key {
    ghost laws = { eq_by_cmp_equiv nat_list_cmp_total };
}

impl PartialOrd for Key {
    ghost partial_cmp = { as_partial_cmp (slice_cmp nat_cmp) };

    ghost laws = { partial_order_from_total nat_list_cmp_total };

    fn partial_cmp(&self, other: &Key) -> Option<Ordering> {
        Some(self.cmp(other))
    }
}

impl Ord for Key {
    ghost cmp = { slice_cmp nat_cmp };

    ghost total = { nat_list_cmp_total };

    ghost matches_partial_cmp = { λ _ _. refl };

    ghost matches_eq = { λ _ _. refl };

    fn cmp(&self, other: &Key) -> Ordering {
        self.bytes.as_slice().cmp(other.bytes.as_slice())
    }
}
