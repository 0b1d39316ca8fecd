// Cuts: the writes of a family at which a snapshot reads; and whether a file has anything below it.
ghost use Rattle.std.specs.Prelude.{◌≡◌, false, ◌≤◌, ◌<◌, ◌++◌, ◌∷◌, [], length};

use std::marker::Model;

/// The greatest number of cuts of a file: that of Live snapshots.
pub const MAX_CUTS: usize = 64;

/// At most 64 cuts, seen by contracts as the list of their numbers. They lie in place, so that a file's header is
/// read and copied without memory. What makes them ascend inside a range is a law of the file, not of this type.
#[derive(Clone, Copy, Debug, PartialEq, Eq)]
pub struct Cuts {
    count: usize,
    // 0 from place `count` on
    cuts: [u64; 64],
}

impl Model for Cuts {
    ghost use Rattle.std.specs.Prelude.{◌≡◌, ◌-◌, ◌≤◌, ◌++◌, ℕ, List, length, take, replicate};
    ghost use Rattle.std.proofs.Common.{arith, length-take-le, ap, sym, ◌∙◌};

    ghost Value = { List ℕ };

    ghost view = { λ s. take s.count s.cuts };

    ghost invariant = { λ s. (s.count ≤ 64) × (length s.cuts ≡ 64) × (s.cuts ≡ take s.count s.cuts ++ replicate (64 - s.count) 0) };

    ghost inverse = { λ l. record { count = length l; cuts = l ++ replicate (64 - length l) 0 } };

    ghost inverse_ok = { λ s h i. record {
      count = length-take-le s.count s.cuts (omega (arith, h.0, h.1)) i;
      cuts = (ap (λ n. take s.count s.cuts ++ replicate (64 - n) 0) (length-take-le s.count s.cuts (omega (arith, h.0, h.1))) ∙ sym h.2) i;
    } };
}

impl Cuts {
    /// No cut. Takes no memory.
    pub fn none() -> Cuts
        ensures { result ≡ [] }
    {
        Cuts {
            count: 0,
            cuts: [0; 64],
        }
    }

    /// The cuts. Takes no memory.
    pub fn as_slice(&self) -> &[u64]
        ensures cuts { result.now ≡ self.now }
        ensures few { length self.now ≤ MAX_CUTS }
    {
        &self.cuts[..self.count]
    }

    /// One more cut, the last. Takes no memory.
    pub fn push(&mut self, cut: u64)
        requires { length self.old < MAX_CUTS }
        ensures { self.new ≡ self.old ++ cut ∷ [] }
    {
        self.cuts[self.count] = cut;
        self.count += 1;
    }
}

/// What lies below the rows of a file or a table, and what its rows are to keep.
#[derive(Clone, Copy, Debug, PartialEq, Eq)]
pub struct Bottom {
    /// Nothing lies below, so a delete under which no older put stays is left out.
    pub last: bool,
    /// Ascending, each inside the range. Of each interval between them the newest write of a key stays.
    pub cuts: Cuts,
}

impl Bottom {
    /// No cut, and something may lie below, as in a file that a flush writes while no snapshot is Live. Takes no memory.
    pub fn plain() -> Bottom
        ensures { result ≡ record { last = false; cuts = [] } }
    {
        Bottom {
            last: false,
            cuts: Cuts::none(),
        }
    }
}
