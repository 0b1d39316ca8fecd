// The order of the slots that a lane carries.
ghost use Rattle.std.specs.Prelude.{◌≡◌, ◌<◌, length};
ghost use Rattle.sv_slots.specs.Carried.{ahead, rotated};

use crate::table::LaneSeat;
use sv_rule::Parts;

impl<P: Parts> LaneSeat<P> {
    ghost use Rattle.sv_slots.specs.Seats.{StartsAt};

    fn turn(&mut self)
        ensures same { (self.new.seat.table_id ≡ self.old.seat.table_id) × (self.new.seat.id ≡ self.old.seat.id) × (self.new.seat.me.0 ≡ self.old.seat.me.0) × (self.new.lane ≡ self.old.lane) }
        ensures out { self.new.out.items ≡ rotated self.old.out.items }
    {
        self.seat.turn();
        if self.out.len() > 0 {
            let first = self.out.remove(0);
            self.out.push(first);
        }
    }

    /// The slot comes to the front of those that the lane carries.
    pub(crate) fn bring(&mut self, slot: u16)
        requires { ahead slot self.old.out.items < length self.old.out.items }
        ensures same { (self.new.seat.table_id ≡ self.old.seat.table_id) × (self.new.seat.id ≡ self.old.seat.id) × (self.new.seat.me.0 ≡ self.old.seat.me.0) × (self.new.lane ≡ self.old.lane) }
        ensures front { StartsAt slot self.new.seat.me.1 }
        ensures first { ahead slot self.new.out.items ≡ 0 }
    {
        while self.out[0] != slot {
            self.turn();
        }
    }
}
