// Loads of number words and of the round word.
ghost use Rattle.std.specs.Prelude.{◌≡◌, ◌<◌};
ghost use Rattle.sv_rule.specs.RoundPlays.{framed};
ghost use Rattle.sv_slots.specs.Known.{CameWith, IsSameSeat, table_of, view_of};

use crate::table::{Core, LaneSeat};
use std::marker::Brand;
use sv_model::FamilyId;
use sv_rule::Parts;

impl<P: Parts> Core<P> {
    ghost use Rattle.sv_slots.specs.Borrows.{IsLooked};

    /// Loads a number word. `None` is a family without a current.
    pub fn look(&self, seat: &mut LaneSeat<P>, family: FamilyId) -> Option<u64>
        requires table { CameWith (table_of self.now) seat.old }
        requires family { family < 16 }
        ensures same { IsSameSeat seat.old seat.new }
        ensures looked { IsLooked family result (view_of seat.old) (view_of seat.new) }
    {
        let lane = seat.lane;
        let now = self.look_step::<Brand>(&mut seat.seat, lane, family.0);
        if now == 0 {
            return None;
        }
        Some(now)
    }

    /// Loads the round word.
    pub fn round(&self, seat: &mut LaneSeat<P>) -> u64
        requires table { CameWith (table_of self.now) seat.old }
        ensures same { IsSameSeat seat.old seat.new }
        ensures framed { view_of seat.new ≡ framed result (view_of seat.old) }
    {
        let lane = seat.lane;
        self.frame_step(&mut seat.seat, lane)
    }
}
