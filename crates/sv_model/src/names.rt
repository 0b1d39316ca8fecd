// The name of a column family, seen by contracts as its bytes.
ghost use Rattle.std.specs.Prelude.{◌≡◌, ◌≤◌, IfOk, IsTrue, IfSome, IsSome, Some, option_map};
ghost use Rattle.std.specs.List.{list_all};
ghost use Rattle.sv_model.specs.Names.{is_name, is_name_byte, name_of};

use std::alloc::AllocError;
use std::marker::Model;

/// The greatest number of bytes of a name.
pub const MAX_NAME: usize = 32;

/// A name: 1 to 32 bytes of `a` to `z`, `0` to `9` and `_`.
#[derive(Drop, Debug)]
pub struct Name {
    /// The name, and zeros after it.
    bytes: [u8; MAX_NAME],
    len: u8,
}

impl Model for Name {
    ghost use Rattle.std.specs.Prelude.{ℕ, List, IsTrue, ◌≤◌, take};
    ghost use Rattle.sv_model.specs.Names.{is_name};
    ghost use Rattle.sv_model.specs.declared.names.TheConstants.{MAX_NAME};

    ghost Value = { List ℕ };

    ghost view = { λ n. take n.len n.bytes };

    ghost invariant = { λ n. (n.len ≤ MAX_NAME) × IsTrue (is_name (take n.len n.bytes)) };
}

fn is_name_byte(byte: u8) -> bool
    ensures { result ≡ is_name_byte byte }
{
    matches!(byte, b'a'..=b'z' | b'0'..=b'9' | b'_')
}

fn has_name_bytes(bytes: &[u8]) -> bool
    ensures { result ≡ list_all is_name_byte bytes.now }
{
    bytes.iter().all(|byte| is_name_byte(*byte))
}

fn is_name(bytes: &[u8]) -> bool
    ensures { result ≡ is_name bytes.now }
{
    if bytes.is_empty() || bytes.len() > MAX_NAME {
        return false;
    }
    has_name_bytes(bytes)
}

impl Name {
    /// The name of these bytes; none exactly where they are no name. Takes no memory.
    pub fn new(bytes: &[u8]) -> Option<Name>
        ensures made { result ≡ name_of bytes.now }
    {
        if !is_name(bytes) {
            return None;
        }
        let mut kept = [0; MAX_NAME];
        kept[..bytes.len()].copy_from_slice(bytes);
        Some(Name {
            bytes: kept,
            len: bytes.len() as u8,
        })
    }

    /// The bytes.
    pub fn as_bytes(&self) -> &[u8]
        ensures bytes { result.now ≡ self.now }
        ensures lawful { IsTrue (is_name self.now) }
    {
        &self.bytes[..self.len as usize]
    }
}

impl Clone for Name {
    ghost is_clone = { λ name copy. copy ≡ name };

    fn clone(&self) -> Result<Name, AllocError> {
        Ok(Name {
            bytes: self.bytes,
            len: self.len,
        })
    }
}
