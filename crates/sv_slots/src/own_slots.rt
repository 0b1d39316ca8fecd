// What a lane does with its own slot of a family, by a seat that stands alone.
ghost use Rattle.std.specs.Prelude.{◌≡◌, ◌<◌, ◌≤◌, IfErr, IfOk, length};
ghost use Rattle.atomic_table.specs.Table.{rest};
ghost use Rattle.sv_model.specs.Lists.{In, same, total, at};
ghost use Rattle.sv_model.specs.Supers.{current_of};
ghost use Rattle.sv_rule.specs.Table.{slot_home, slot_of, spot};
ghost use Rattle.sv_rule.specs.Views.{away, idle};
ghost use Rattle.sv_slots.specs.Seats.{CarriesAt, CarriesNothing, HasDesk, IsLane, Lends, bodied};

use crate::borrows::{Back, Miss};
use crate::table::{Core, MAX_HAND, slot_home_of};
use atomic_table::Seat;
use std::marker::Brand;
use sv_model::SvRef;
use sv_rule::{Parts, Stored, StoredOf, View};

impl<P: Parts> Core<P> {
    ghost use Rattle.sv_slots.specs.Borrows.{IsBack, IsHit, IsMiss, IsRested, borrowed};

    pub(crate) fn borrow_at(
        &self,
        seat: &mut Seat<StoredOf<P>, View>,
        lane: u8,
        family: u8,
    ) -> Result<SvRef<P::Body>, Miss<P>>
        requires table { seat.old.table_id ≡ self.now.table.shared.table_id }
        requires family { family < 16 }
        requires lane { IsLane seat.old.me.0 lane }
        requires free { slot_of seat.old.me.0 family ≡ away }
        requires room { length seat.old.me.0.hand < MAX_HAND }
        ensures same { (seat.new.table_id ≡ seat.old.table_id) × (seat.new.id ≡ seat.old.id) }
        ensures ok { IfOk result (λ sv. IsHit P.body family sv seat.old.me.0 seat.new.me.0 × CarriesAt (slot_home (spot lane family)) seat.old.me.1 seat.new.me.1) }
        ensures err { IfErr result (λ e. IsMiss P.body family e seat.old.me.0 seat.new.me.0 × (seat.new.me.1 ≡ seat.old.me.1)) }
    {
        let found = self.use_step::<Brand, Brand>(seat, lane, family, 1);
        if found == 0 {
            self.rest_step::<Brand, Brand, Brand>(seat, lane, family, 0, 0);
            return Err(Miss::Empty);
        }
        if found < 256 {
            return Err(Miss::Empty);
        }
        let slot = slot_home_of(lane, family);
        let Stored::Cached(sv) = self.table.shared.exchange(seat, slot, Stored::Nothing) else {
            unreachable!()
        };
        let now = self.look_step::<Brand>(seat, lane, family);
        if now == found {
            return Ok(sv);
        }
        self.rest_step::<Brand, Brand, Brand>(seat, lane, family, found, 1);
        Err(Miss::Stale { cached: sv, now })
    }

    pub(crate) fn borrow_locked_at(
        &self,
        seat: &mut Seat<StoredOf<P>, View>,
        lane: u8,
        family: u8,
        _fresh: &SvRef<P::Body>,
    )
        requires table { seat.old.table_id ≡ self.now.table.shared.table_id }
        requires family { family < 16 }
        requires lane { IsLane seat.old.me.0 lane }
        requires free { (slot_of seat.old.me.0 family ≡ away) × (at 0 seat.old.me.0.slots.cached family ≡ 0) }
        requires lock { HasDesk seat.old.me.0 (λ d. (d.work ≡ idle) × (_fresh.now.pack ≡ current_of d.books family)) }
        requires fresh { (256 ≤ _fresh.now.pack) × (0 < total (same _fresh.now.pack) seat.old.me.0.hand) }
        ensures same { (seat.new.table_id ≡ seat.old.table_id) × (seat.new.id ≡ seat.old.id) }
        ensures view { seat.new.me.0 ≡ borrowed family _fresh.now.pack seat.old.me.0 }
        ensures carried { CarriesAt (slot_home (spot lane family)) seat.old.me.1 seat.new.me.1 }
    {
        self.use_step::<Brand, Brand>(seat, lane, family, 0);
        self.look_step::<Brand>(seat, lane, family);
    }

    pub(crate) fn rest_at(
        &self,
        seat: &mut Seat<StoredOf<P>, View>,
        lane: u8,
        family: u8,
    ) -> Option<SvRef<P::Body>>
        requires table { seat.old.table_id ≡ self.now.table.shared.table_id }
        requires family { family < 16 }
        requires lane { IsLane seat.old.me.0 lane }
        requires free { slot_of seat.old.me.0 family ≡ away }
        requires room { length seat.old.me.0.hand < MAX_HAND }
        ensures same { (seat.new.table_id ≡ seat.old.table_id) × (seat.new.id ≡ seat.old.id) }
        ensures carried { seat.new.me.1 ≡ seat.old.me.1 }
        ensures rested { IsRested P.body family result seat.old.me.0 seat.new.me.0 }
    {
        let found = self.use_step::<Brand, Brand>(seat, lane, family, 0);
        if found == 0 {
            self.rest_step::<Brand, Brand, Brand>(seat, lane, family, 0, 0);
            return None;
        }
        if found < 256 {
            return None;
        }
        let slot = slot_home_of(lane, family);
        let Stored::Cached(sv) = self.table.shared.exchange(seat, slot, Stored::Nothing) else {
            unreachable!()
        };
        self.rest_step::<Brand, Brand, Brand>(seat, lane, family, found, 0);
        Some(sv)
    }

    pub(crate) fn give_back_at(
        &self,
        seat: &mut Seat<StoredOf<P>, View>,
        lane: u8,
        family: u8,
        sv: SvRef<P::Body>,
        pack: u64,
    ) -> Back<P>
        requires table { seat.old.table_id ≡ self.now.table.shared.table_id }
        requires family { (family < 16) × (256 ≤ pack) × (sv.pack ≡ pack) }
        requires lane { IsLane seat.old.me.0 lane }
        requires lent { Lends seat.old.me.0 family pack }
        requires known { In (bodied P.body sv) seat.old.me.0.known.bodies }
        requires front { CarriesNothing lane family seat.old.me.1 }
        requires room { length seat.old.me.0.hand < MAX_HAND }
        ensures same { (seat.new.table_id ≡ seat.old.table_id) × (seat.new.id ≡ seat.old.id) }
        ensures carried { seat.new.me.1 ≡ rest seat.old.me.1 }
        ensures given { IsBack P.body family sv result seat.old.me.0 seat.new.me.0 }
    {
        let slot = slot_home_of(lane, family);
        drop(self.table.shared.exchange(seat, slot, Stored::Cached(sv)));
        let found = self.put_step::<Brand, Brand>(seat, lane, family, pack);
        if found == 1 {
            return Back::Kept;
        }
        let Stored::Cached(sv) = self.table.shared.exchange(seat, slot, Stored::Nothing) else {
            unreachable!()
        };
        self.rest_step::<Brand, Brand, Brand>(seat, lane, family, pack, 0);
        Back::Swept(sv)
    }
}
