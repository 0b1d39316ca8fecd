// A checked file in memory, in which keys are found by binary search.
ghost use Rattle.std.specs.Prelude.{◌≡◌, ℕ, List, IfOk, IfErr, length};
ghost use Rattle.sv_model.specs.TableText.{IsTableFile};
ghost use Rattle.sv_table.specs.Decoding.{IsHeadOf, IsRefused};
ghost use Rattle.sv_table.specs.Lookups.{IsFoundIn, hit_op};

use crate::faults::DecodeError;
use crate::headers::Header;
use crate::heads::{Head, head_of};
use crate::hits::Hit;
use crate::places::{find_row, places_of};
use crate::walks::file_at;
use std::marker::Model;
use sv_model::{Key, OutOfMemory};

/// The bytes of a file that are a table's text, with the place of each row, so that a key is found by binary search.
/// Seen as those bytes.
#[derive(Drop)]
pub struct Checked {
    bytes: Vec<u8>,
    header: Header,
    // the offset of each row
    places: Vec<usize>,
}

impl Model for Checked {
    ghost use Rattle.std.specs.Prelude.{ℕ, List};
    ghost use Rattle.sv_table.specs.Places.{IsIndexed};
    ghost use Rattle.sv_table.specs.Views.{header_is};

    ghost Value = { List ℕ };

    ghost view = { λ c. c.bytes.items };

    ghost invariant = { λ c. IsIndexed (header_is c.header) c.bytes.items c.places.items };
}

impl Checked {
    /// These bytes, where they are a table's text; else the offset of the first bad field, or out of memory where
    /// they are a text.
    pub fn new(bytes: Vec<u8>) -> Result<Checked, DecodeError>
        ensures made { IfOk result (λ checked. checked ≡ bytes.items) }
        ensures file { IfOk result (λ _. IsTableFile bytes.items) }
        ensures refused { IfErr result (λ e. IsRefused bytes.items e) }
    {
        let alloc = *bytes.allocator();
        let (header, rows) = match file_at(bytes.as_slice()) {
            Ok(file) => file,
            Err(stuck) => {
                return Err(DecodeError::Bad {
                    place: (bytes.len() - stuck.left) as u64,
                });
            }
        };
        match places_of(alloc, &header, bytes.as_slice(), rows) {
            Ok(places) => Ok(Checked {
                bytes,
                header,
                places,
            }),
            Err(OutOfMemory) => Err(DecodeError::OutOfMemory),
        }
    }

    /// What the file says of its table before the rows. Takes no memory.
    pub fn head(&self) -> Head
        ensures { IsHeadOf self.now result }
    {
        head_of(&self.header)
    }

    /// How many bytes the file has. Takes no memory.
    pub fn len(&self) -> u64
        ensures { result ≡ length self.now }
    {
        self.bytes.len() as u64
    }

    /// What the first row of the key does whose end is at most the cut; none where there is no such row. Takes no
    /// memory.
    pub fn find(&self, key: &Key, cut: u64) -> Option<Hit<'_>>
        ensures { IsFoundIn self.now key.now cut (hit_op result) }
    {
        find_row(
            &self.header,
            self.bytes.as_slice(),
            self.places.as_slice(),
            key.as_bytes(),
            cut,
        )
    }
}
