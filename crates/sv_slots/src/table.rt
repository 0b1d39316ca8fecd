// The table, and what a lane steps with.
ghost use Rattle.std.specs.Prelude.{◌≡◌, ◌<◌, ◌^◌};
ghost use Rattle.sv_rule.specs.Table.{cell_word, slot_home, slot_word, spot};
ghost use Rattle.sv_slots.specs.Seats.{IsLane, IsSized};
ghost use Rattle.sv_slots.specs.Carried.{Carries};
ghost use Rattle.sv_slots.specs.Counters.{Tells};

use crate::counters::Counts;
use arrayvec::ArrayVec;
use atomic_table::{Seat, Table};
use std::alloc::Global;
use sv_model::Pack;
use sv_rule::{Opening, Parts, Rule, StoredOf, View};

/// So many references a lane has in hand at most.
pub const MAX_HAND: usize = 65_600;

/// So many slots a lane has room to carry: of its own 16, and with three locks.
pub(crate) const MAX_CARRIED: usize = 24;

/// The table of a database.
#[derive(Drop)]
pub struct Core<P: Parts> {
    pub(crate) table: Table<StoredOf<P>, View, Opening<P::State, P::Dir>, Rule<P>, Global>,
    ghost sized: { IsSized table.shared.table_id },
}

/// What a lane steps with. It carries the slots that are out with it, in the order in which the table knows them, and
/// counts what became of its borrows.
#[derive(Drop)]
pub struct LaneSeat<P: Parts> {
    pub(crate) lane: u8,
    pub(crate) seat: Seat<StoredOf<P>, View>,
    pub(crate) out: ArrayVec<u16, MAX_CARRIED>,
    pub(crate) counts: Counts,
    ghost is_lane: { IsLane seat.me.0 lane },
    ghost carried: { Carries seat.me.0 seat.me.1 out.items },
    ghost tells: { Tells counts seat.me.0 },
}

/// The word of the slot of a family.
pub(crate) fn slot_word_of(lane: u8, family: u8) -> usize
    ensures { result ≡ slot_word (spot lane family) }
{
    339 + (usize::from(lane) * 16 + usize::from(family))
}

/// The slot of a family.
pub(crate) fn slot_home_of(lane: u8, family: u8) -> usize
    ensures { result ≡ slot_home (spot lane family) }
{
    66 + (usize::from(lane) * 16 + usize::from(family))
}

/// The word that names a SuperVersion.
pub(crate) fn word_of(pack: Pack) -> u64
    ensures value { result ≡ pack }
    ensures small { result < 2 ^ 40 }
{
    u64::from(pack.serial.0) * 256 + u64::from(pack.place)
}

/// The lock word of a cell, which is the number of its slot too.
pub(crate) fn cell_word_of(cell: u8) -> usize
    ensures { result ≡ cell_word cell }
{
    2 + usize::from(cell)
}
