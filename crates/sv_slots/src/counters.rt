// How often a lane borrowed, how often it missed, and how often a sweep was there before it gave back.
ghost use Rattle.std.specs.Prelude.{◌≡◌, false, true};

use crate::table::{Core, LaneSeat};
use sv_rule::Parts;

/// What a lane counted. A number above the greatest of its type is told as that.
#[derive(Clone, Copy)]
pub struct Counts {
    /// Calls of `try_borrow`.
    pub uses: u64,
    /// Those that missed.
    pub misses: u64,
    /// Answers `Swept` of `give_back`.
    pub swept: u64,
}

impl Counts {
    ghost use Rattle.sv_slots.specs.Counters.{Rises};

    pub(crate) fn none() -> Counts
        ensures { result ≡ record { uses = 0; misses = 0; swept = 0 } }
    {
        Counts {
            uses: 0,
            misses: 0,
            swept: 0,
        }
    }

    pub(crate) fn hit(&mut self)
        ensures { Rises true false false self.old self.new }
    {
        self.uses = self.uses.saturating_add(1);
    }

    pub(crate) fn missed(&mut self)
        ensures { Rises true true false self.old self.new }
    {
        self.uses = self.uses.saturating_add(1);
        self.misses = self.misses.saturating_add(1);
    }

    pub(crate) fn given_back(&mut self, swept: bool)
        ensures { Rises false false swept self.old self.new }
    {
        if swept {
            self.swept = self.swept.saturating_add(1);
        }
    }
}

impl<P: Parts> Core<P> {
    ghost use Rattle.sv_slots.specs.Counters.{Tells};
    ghost use Rattle.sv_slots.specs.Known.{view_of};

    /// What the lane counted so far, by its view.
    pub fn counts(&self, seat: &LaneSeat<P>) -> Counts
        ensures { Tells result (view_of seat.now) }
    {
        seat.counts
    }
}
