// A lane borrows what its slot of a family caches, and gives it back.
ghost use Rattle.std.specs.Prelude.{◌≡◌, ◌<◌, ◌≤◌, IfErr, IfOk, length};
ghost use Rattle.sv_model.specs.Lists.{In, same, total, at};
ghost use Rattle.sv_model.specs.Supers.{current_of};
ghost use Rattle.sv_rule.specs.Table.{slot_of};
ghost use Rattle.sv_rule.specs.Views.{away, idle};
ghost use Rattle.sv_slots.specs.Known.{CameWith, IsSameSeat, table_of, view_of};
ghost use Rattle.sv_slots.specs.Seats.{HasDesk, Lends, bodied};

use crate::table::{Core, LaneSeat, MAX_HAND, slot_home_of, word_of};
use sv_model::{FamilyId, SvRef};
use sv_rule::Parts;

/// A SuperVersion that the lane's slot of a family lent it.
#[derive(Drop)]
pub struct Borrow<P: Parts> {
    pub(crate) family: FamilyId,
    pub(crate) sv: SvRef<P::Body>,
}

/// Why a lane has no borrow.
#[derive(Drop)]
pub enum Miss<P: Parts> {
    /// The slot cached nothing, or a sweep had it.
    Empty,
    /// The slot cached what is no longer current. The reference is the lane's now.
    Stale { cached: SvRef<P::Body>, now: u64 },
}

/// What became of a borrow that was given back.
#[derive(Drop)]
pub enum Back<P: Parts> {
    Kept,
    /// A sweep was there. The reference is the lane's now.
    Swept(SvRef<P::Body>),
}

impl<P: Parts> Borrow<P> {
    /// The SuperVersion.
    pub fn sv(&self) -> &SvRef<P::Body>
        ensures { result.now ≡ self.now.sv }
    {
        &self.sv
    }
}

impl<P: Parts> Back<P> {
    ghost use Rattle.sv_slots.specs.Borrows.{was_swept};

    fn is_swept(&self) -> bool
        ensures { result ≡ was_swept self.now }
    {
        matches!(self, Back::Swept(_))
    }
}

impl<P: Parts> Core<P> {
    ghost use Rattle.sv_slots.specs.Borrows.{IsBack, IsHit, IsMiss, IsRested, borrowed};

    /// Takes the lane's slot of a family for a borrow, where the slot caches the current SuperVersion.
    pub fn try_borrow(&self, seat: &mut LaneSeat<P>, family: FamilyId) -> Result<Borrow<P>, Miss<P>>
        requires table { CameWith (table_of self.now) seat.old }
        requires family { family < 16 }
        requires free { slot_of (view_of seat.old) family ≡ away }
        requires room { length (view_of seat.old).hand < MAX_HAND }
        ensures same { IsSameSeat seat.old seat.new }
        ensures ok { IfOk result (λ b. (b.family ≡ family) × IsHit P.body family b.sv (view_of seat.old) (view_of seat.new)) }
        ensures err { IfErr result (λ e. IsMiss P.body family e (view_of seat.old) (view_of seat.new)) }
    {
        let lane = seat.lane;
        match self.borrow_at(&mut seat.seat, lane, family.0) {
            Ok(sv) => {
                seat.counts.hit();
                seat.out.insert(0, slot_home_of(lane, family.0) as u16);
                Ok(Borrow { family, sv })
            }
            Err(miss) => {
                seat.counts.missed();
                Err(miss)
            }
        }
    }

    /// Takes the lane's slot of a family, which caches nothing, for a borrow of the current SuperVersion, under the DB
    /// lock.
    pub fn borrow_locked(
        &self,
        seat: &mut LaneSeat<P>,
        family: FamilyId,
        fresh: SvRef<P::Body>,
    ) -> Borrow<P>
        requires table { CameWith (table_of self.now) seat.old }
        requires family { family < 16 }
        requires free { (slot_of (view_of seat.old) family ≡ away) × (at 0 (view_of seat.old).slots.cached family ≡ 0) }
        requires lock { HasDesk (view_of seat.old) (λ d. (d.work ≡ idle) × (fresh.pack ≡ current_of d.books family)) }
        requires fresh { (256 ≤ fresh.pack) × (0 < total (same fresh.pack) (view_of seat.old).hand) }
        ensures same { IsSameSeat seat.old seat.new }
        ensures borrow { (result.family ≡ family) × (result.sv ≡ fresh) }
        ensures view { view_of seat.new ≡ borrowed family fresh.pack (view_of seat.old) }
    {
        let lane = seat.lane;
        self.borrow_locked_at(&mut seat.seat, lane, family.0, &fresh);
        seat.out.insert(0, slot_home_of(lane, family.0) as u16);
        Borrow { family, sv: fresh }
    }

    /// Gives a borrow back to the lane's slot, unless a sweep was there.
    pub fn give_back(&self, seat: &mut LaneSeat<P>, borrow: Borrow<P>) -> Back<P>
        requires table { CameWith (table_of self.now) seat.old }
        requires family { (borrow.family < 16) × (256 ≤ borrow.sv.pack) }
        requires lent { Lends (view_of seat.old) borrow.family borrow.sv.pack }
        requires known { In (bodied P.body borrow.sv) (view_of seat.old).known.bodies }
        requires room { length (view_of seat.old).hand < MAX_HAND }
        ensures same { IsSameSeat seat.old seat.new }
        ensures given { IsBack P.body borrow.family borrow.sv result (view_of seat.old) (view_of seat.new) }
    {
        let Borrow { family, sv } = borrow;
        let lane = seat.lane;
        seat.bring(slot_home_of(lane, family.0) as u16);
        let pack = word_of(sv.pack);
        let back = self.give_back_at(&mut seat.seat, lane, family.0, sv, pack);
        seat.out.remove(0);
        seat.counts.given_back(back.is_swept());
        back
    }

    /// Takes from the lane's slot what it caches.
    pub fn rest(&self, seat: &mut LaneSeat<P>, family: FamilyId) -> Option<SvRef<P::Body>>
        requires table { CameWith (table_of self.now) seat.old }
        requires family { family < 16 }
        requires free { slot_of (view_of seat.old) family ≡ away }
        requires room { length (view_of seat.old).hand < MAX_HAND }
        ensures same { IsSameSeat seat.old seat.new }
        ensures rested { IsRested P.body family result (view_of seat.old) (view_of seat.new) }
    {
        let lane = seat.lane;
        self.rest_at(&mut seat.seat, lane, family.0)
    }
}
