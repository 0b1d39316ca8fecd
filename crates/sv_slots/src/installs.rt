// Installs, retirements and cleanups, under the DB lock.
ghost use Rattle.std.specs.Prelude.{◌+◌, ◌≡◌, ◌<◌, ◌≤◌, false, length};
ghost use Rattle.sv_model.specs.Lists.{Every};
ghost use Rattle.sv_rule.specs.Blanks.{desk_of};
ghost use Rattle.sv_rule.specs.Fits.{BodyFits};
ghost use Rattle.sv_rule.specs.Numbers.{NumberOk};
ghost use Rattle.sv_rule.specs.ReferencePlays.{MayOpen, MaySettle, settled};
ghost use Rattle.sv_rule.specs.RoundPlays.{MayEndCurrent};
ghost use Rattle.sv_rule.specs.SweepPlays.{Sweeps};
ghost use Rattle.sv_rule.specs.Views.{begun};
ghost use Rattle.sv_slots.specs.Known.{CameWith, IsSameSeat, table_of, view_of};
ghost use Rattle.sv_slots.specs.Seats.{bodied};

use crate::picks::{Installing, Settling};
use crate::refs::Owed;
use crate::table::{Core, LaneSeat, MAX_HAND, word_of};
use std::marker::Brand;
use sv_model::{FamilyId, SvRef};
use sv_rule::Parts;

impl<P: Parts> Core<P> {
    ghost use Rattle.sv_slots.specs.Installs.{IsSwept, installed, retired};

    /// Makes a new SuperVersion current: the steps of an install before the sweep. The answer is the number word that
    /// it found. The caller picks what the books have of its own, and the bodies of the old SuperVersion.
    pub fn make_current<J: Installing>(
        &self,
        seat: &mut LaneSeat<P>,
        state: &P::State,
        family: FamilyId,
        new: &SvRef<P::Body>,
    ) -> u64
        requires table { CameWith (table_of self.now) seat.old }
        requires family { family < 16 }
        requires may { MayOpen (view_of seat.old) family (bodied P.body new.now) (P.books state.now) J.task }
        requires olds { Every (BodyFits (P.books state.now)) J.olds }
        requires room { length (view_of seat.old).hand + 1 < MAX_HAND }
        ensures same { IsSameSeat seat.old seat.new }
        ensures view { view_of seat.new ≡ installed family (bodied P.body new.now) (P.books state.now) J.task J.olds result (view_of seat.old) }
        ensures was { NumberOk (P.books state.now) (begun family) family result }
    {
        let lane = seat.lane;
        let pack = word_of(new.pack);
        self.open_step::<Brand>(&mut seat.seat, state, family.0, new, pack);
        self.round_step::<Brand>(&mut seat.seat, lane, family.0);
        self.number_step::<Brand>(&mut seat.seat, family.0, pack)
    }

    /// Ends the current of a family: the steps of a retirement before the sweep. The answer is the number word that it
    /// found. The caller picks as for an install.
    pub fn no_current<J: Installing>(
        &self,
        seat: &mut LaneSeat<P>,
        state: &P::State,
        family: FamilyId,
    ) -> u64
        requires table { CameWith (table_of self.now) seat.old }
        requires family { family < 16 }
        requires may { MayEndCurrent (view_of seat.old) family (P.books state.now) J.task }
        requires olds { Every (BodyFits (P.books state.now)) J.olds }
        requires room { length (view_of seat.old).hand < MAX_HAND }
        ensures same { IsSameSeat seat.old seat.new }
        ensures view { view_of seat.new ≡ retired family (P.books state.now) J.task J.olds result (view_of seat.old) }
        ensures was { NumberOk (P.books state.now) (begun family) family result }
    {
        self.end_step::<Brand>(&mut seat.seat, state, family.0);
        self.number_step::<Brand>(&mut seat.seat, family.0, 0)
    }

    /// Sweeps the slot of a lane, the next one in turn.
    pub fn sweep(
        &self,
        seat: &mut LaneSeat<P>,
        family: FamilyId,
        lane: u8,
    ) -> Option<SvRef<P::Body>>
        requires table { CameWith (table_of self.now) seat.old }
        requires at { (family < 16) × (lane < 32) }
        requires work { Sweeps (view_of seat.old) family lane false }
        requires room { length (view_of seat.old).hand < MAX_HAND }
        ensures same { IsSameSeat seat.old seat.new }
        ensures swept { IsSwept P.body family lane result (view_of seat.old) (view_of seat.new) }
    {
        let own = seat.lane;
        self.sweep_at(&mut seat.seat, own, family.0, lane)
    }

    /// The reference word of a SuperVersion is free again, after its cleanup. The caller picks what the books have of
    /// its own, and the cells that are to be made vacant.
    pub fn settle<J: Settling>(&self, seat: &mut LaneSeat<P>, state: &P::State, owed: Owed)
        requires table { CameWith (table_of self.now) seat.old }
        requires may { MaySettle (view_of seat.old) owed.pack (P.books state.now) J.task J.cells }
        ensures same { IsSameSeat seat.old seat.new }
        ensures view { view_of seat.new ≡ settled owed.pack (P.books state.now) J.task J.cells (desk_of (view_of seat.old)) (view_of seat.old) }
    {
        let Owed { pack } = owed;
        self.settle_step::<Brand>(&mut seat.seat, state, word_of(pack));
    }
}
