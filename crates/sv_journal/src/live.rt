// A Live snapshot, with its cut of each family.
ghost use Rattle.std.specs.Prelude.{MatchOption};
ghost use Rattle.sv_journal.specs.Kept.{IsNone, IsPlaceOf};

use crate::journal::FAMILIES;

/// A Live snapshot. Its cuts are written down when it is taken, so that a read at it counts nothing.
#[derive(Clone, Copy)]
pub(crate) struct LiveSnapshot {
    pub id: u64,
    pub at: u64,
    /// By family, how many of the writes before `at` are its.
    pub cuts: [u64; FAMILIES],
}

// Where the snapshot of this number stands among the Live ones.
pub(crate) fn place_of(live: &[LiveSnapshot], id: u64) -> Option<usize>
    ensures { MatchOption result (IsNone live.now id) (IsPlaceOf live.now id) }
{
    for place in 0..live.len() {
        if live[place].id == id {
            return Some(place);
        }
    }
    None
}
