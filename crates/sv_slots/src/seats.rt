// The making and the joining of seats.
ghost use Rattle.std.specs.Prelude.{◌≡◌, ◌<◌};
ghost use Rattle.sv_rule.specs.SeatPlays.{IsIdle, MaySplit, gathered, split_left, split_right};
ghost use Rattle.sv_slots.specs.Known.{CameWith, IsSameSeat, table_of, view_of};

use crate::counters::Counts;
use crate::table::{Core, LaneSeat};
use arrayvec::ArrayVec;
use sv_rule::{Gather, Parts, SplitLane};

impl<P: Parts> Core<P> {
    // The seat of the next lane, made by that of lane 0.
    pub(crate) fn split(&self, seat: &mut LaneSeat<P>, lane: u8) -> LaneSeat<P>
        requires table { CameWith (table_of self.now) seat.old }
        requires lane { ((view_of seat.old).seat.made ≡ lane) × (lane < 32) × MaySplit (view_of seat.old) }
        ensures same { IsSameSeat seat.old seat.new }
        ensures left { view_of seat.new ≡ split_left (view_of seat.old) }
        ensures right { (result.seat.table_id ≡ seat.old.seat.table_id) × (result.lane ≡ lane) × ((view_of result) ≡ split_right (view_of seat.old)) }
    {
        let other = self.table.shared.split_seat::<SplitLane>(&mut seat.seat);
        LaneSeat {
            lane,
            seat: other,
            out: ArrayVec::new(),
            counts: Counts::none(),
        }
    }

    /// The other lane's seat is taken in, with all that it knows.
    pub fn gather(&self, seat: &mut LaneSeat<P>, other: LaneSeat<P>)
        requires table { (CameWith (table_of self.now) seat.old) × (CameWith (table_of self.now) other) }
        requires idle { IsIdle (view_of other) }
        ensures same { IsSameSeat seat.old seat.new }
        ensures gathered { view_of seat.new ≡ gathered (view_of seat.old) (view_of other) }
    {
        let LaneSeat {
            lane: _,
            seat: other,
            out: _,
            counts: _,
        } = other;
        self.table.shared.join_seat::<Gather>(&mut seat.seat, other);
    }
}
