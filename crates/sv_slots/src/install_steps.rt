// The steps of an install, of a retirement and of a cleanup.
ghost use Rattle.std.specs.Prelude.{Some, ◌≡◌, ◌<◌, ◌^◌, false, true, length};
ghost use Rattle.sv_rule.specs.Blanks.{desk_of, old_in, taken_in};
ghost use Rattle.sv_rule.specs.ReferencePlays.{MayOpen, MaySettle, opened, settled};
ghost use Rattle.sv_rule.specs.RoundPlays.{MayEndCurrent, MaySwap, Numbered, ended_current, rounded};
ghost use Rattle.sv_rule.specs.SweepPlays.{Passed, Sweeps, Swept};
ghost use Rattle.sv_rule.specs.Views.{opens};
ghost use Rattle.sv_slots.specs.Seats.{CarriesNothing, IsLane, bodied};

use crate::refs::COUNTS;
use crate::table::{Core, MAX_HAND, slot_home_of, slot_word_of};
use atomic_table::Seat;
use std::marker::Brand;
use sv_model::SvRef;
use sv_rule::{
    AddRound, At, Begun, Clean, Cleans, Create, Creates, EndCurrent, Ends, Parts, Pass, Stored,
    StoredOf, Swap, Swaps, Sweep, View,
};

impl<P: Parts> Core<P> {
    ghost use Rattle.sv_slots.specs.Installs.{IsSwept};

    // Kind 11, of a new SuperVersion.
    pub(crate) fn open_step<J: Creates>(
        &self,
        seat: &mut Seat<StoredOf<P>, View>,
        _state: &P::State,
        _family: u8,
        _new: &SvRef<P::Body>,
        pack: u64,
    )
        requires table { seat.old.table_id ≡ self.now.table.shared.table_id }
        requires family { J.family ≡ _family }
        requires pack { (J.bodied ≡ bodied P.body _new.now) × (pack ≡ _new.now.pack) × (pack < 2 ^ 40) }
        requires books { J.books ≡ P.books _state.now }
        requires desk { J.desk ≡ desk_of seat.old.me.0 }
        requires may { MayOpen seat.old.me.0 J.family J.bodied J.books J.task }
        ensures same { (seat.new.table_id ≡ seat.old.table_id) × (seat.new.id ≡ seat.old.id) }
        ensures opened { seat.new.me ≡ (opened J.family J.bodied J.books J.task J.desk seat.old.me.0, seat.old.me.1) }
    {
        let word = (83 + pack % 256) as usize;
        self.table
            .shared
            .swap::<Create<J>>(seat, word, pack / 256 * COUNTS + 1);
    }

    // Kind 8, of an install.
    pub(crate) fn round_step<J: Begun>(
        &self,
        seat: &mut Seat<StoredOf<P>, View>,
        _lane: u8,
        _family: u8,
    )
        requires table { seat.old.table_id ≡ self.now.table.shared.table_id }
        requires lane { IsLane seat.old.me.0 _lane }
        requires desk { (seat.old.me.0.locks.db ≡ Some J.desk) × (J.desk.work ≡ opens J.family) }
        ensures same { (seat.new.table_id ≡ seat.old.table_id) × (seat.new.id ≡ seat.old.id) }
        ensures rounded { seat.new.me ≡ (rounded J.family J.desk seat.old.me.0, seat.old.me.1) }
    {
        self.table.shared.fetch_add::<AddRound<J>>(seat, 82, 1);
    }

    // Kind 8, where a family's current ends.
    pub(crate) fn end_step<J: Ends>(
        &self,
        seat: &mut Seat<StoredOf<P>, View>,
        _state: &P::State,
        _family: u8,
    )
        requires table { seat.old.table_id ≡ self.now.table.shared.table_id }
        requires desk { J.desk ≡ desk_of seat.old.me.0 }
        requires may { MayEndCurrent seat.old.me.0 J.family J.books J.task }
        ensures same { (seat.new.table_id ≡ seat.old.table_id) × (seat.new.id ≡ seat.old.id) }
        ensures ended { seat.new.me ≡ (ended_current J.family J.books J.task J.desk seat.old.me.0, seat.old.me.1) }
    {
        self.table.shared.fetch_add::<EndCurrent<J>>(seat, 82, 1);
    }

    // Kind 6.
    pub(crate) fn number_step<J: Swaps>(
        &self,
        seat: &mut Seat<StoredOf<P>, View>,
        family: u8,
        pack: u64,
    ) -> u64
        requires table { seat.old.table_id ≡ self.now.table.shared.table_id }
        requires family { (J.family ≡ family) × (family < 16) }
        requires pack { J.pack ≡ pack }
        requires desk { J.desk ≡ desk_of seat.old.me.0 }
        requires may { MaySwap seat.old.me.0 J.family J.pack J.olds }
        ensures same { (seat.new.table_id ≡ seat.old.table_id) × (seat.new.id ≡ seat.old.id) }
        ensures numbered { Numbered J.desk J.family J.pack J.olds seat.old.me result seat.new.me }
    {
        self.table
            .shared
            .swap::<Swap<J>>(seat, 66 + usize::from(family), pack)
    }

    // Kind 11, after a cleanup.
    pub(crate) fn settle_step<J: Cleans>(
        &self,
        seat: &mut Seat<StoredOf<P>, View>,
        _state: &P::State,
        pack: u64,
    )
        requires table { seat.old.table_id ≡ self.now.table.shared.table_id }
        requires pack { J.pack ≡ pack }
        requires desk { J.desk ≡ desk_of seat.old.me.0 }
        requires may { MaySettle seat.old.me.0 J.pack J.books J.task J.cells }
        ensures same { (seat.new.table_id ≡ seat.old.table_id) × (seat.new.id ≡ seat.old.id) }
        ensures settled { seat.new.me ≡ (settled J.pack J.books J.task J.cells J.desk seat.old.me.0, seat.old.me.1) }
    {
        let word = (83 + pack % 256) as usize;
        self.table.shared.swap::<Clean<J>>(seat, word, 0);
    }

    // Kind 14.
    fn sweep_step<J: At>(
        &self,
        seat: &mut Seat<StoredOf<P>, View>,
        _own: u8,
        family: u8,
        lane: u8,
    ) -> u64
        requires table { seat.old.table_id ≡ self.now.table.shared.table_id }
        requires own { IsLane seat.old.me.0 _own }
        requires at { (J.family ≡ family) × (J.lane ≡ lane) × (family < 16) × (lane < 32) }
        requires desk { (J.desk ≡ desk_of seat.old.me.0) × (J.old ≡ old_in J.desk.work) × (J.taken ≡ taken_in J.desk.work) }
        requires work { Sweeps seat.old.me.0 J.family J.lane false }
        requires room { length seat.old.me.0.hand < MAX_HAND }
        ensures same { (seat.new.table_id ≡ seat.old.table_id) × (seat.new.id ≡ seat.old.id) }
        ensures swept { Swept P.body J.desk J.family J.old J.lane J.taken seat.old.me result seat.new.me }
    {
        let word = slot_word_of(lane, family);
        self.table.shared.swap::<Sweep<P, J>>(seat, word, 2)
    }

    // Kind 15, in the middle of a sweep.
    fn pass_step<J: At>(&self, seat: &mut Seat<StoredOf<P>, View>, _own: u8, family: u8, lane: u8)
        requires table { seat.old.table_id ≡ self.now.table.shared.table_id }
        requires own { IsLane seat.old.me.0 _own }
        requires at { (J.family ≡ family) × (J.lane ≡ lane) × (family < 16) × (lane < 32) }
        requires desk { (J.desk ≡ desk_of seat.old.me.0) × (J.old ≡ old_in J.desk.work) × (J.taken ≡ taken_in J.desk.work) }
        requires work { Sweeps seat.old.me.0 J.family J.lane true }
        requires front { CarriesNothing J.lane J.family seat.old.me.1 }
        ensures same { (seat.new.table_id ≡ seat.old.table_id) × (seat.new.id ≡ seat.old.id) }
        ensures passed { Passed J.desk J.family J.old J.lane J.taken seat.old.me 0 seat.new.me }
    {
        let word = slot_word_of(lane, family);
        self.table.shared.swap::<Pass<J>>(seat, word, 0);
    }

    pub(crate) fn sweep_at(
        &self,
        seat: &mut Seat<StoredOf<P>, View>,
        own: u8,
        family: u8,
        lane: u8,
    ) -> Option<SvRef<P::Body>>
        requires table { seat.old.table_id ≡ self.now.table.shared.table_id }
        requires own { IsLane seat.old.me.0 own }
        requires at { (family < 16) × (lane < 32) }
        requires work { Sweeps seat.old.me.0 family lane false }
        requires room { length seat.old.me.0.hand < MAX_HAND }
        ensures same { (seat.new.table_id ≡ seat.old.table_id) × (seat.new.id ≡ seat.old.id) }
        ensures carried { seat.new.me.1 ≡ seat.old.me.1 }
        ensures swept { IsSwept P.body family lane result seat.old.me.0 seat.new.me.0 }
    {
        let found = self.sweep_step::<Brand>(seat, own, family, lane);
        if found == 0 {
            self.pass_step::<Brand>(seat, own, family, lane);
            return None;
        }
        if found < 256 {
            return None;
        }
        let slot = slot_home_of(lane, family);
        let Stored::Cached(sv) = self.table.shared.exchange(seat, slot, Stored::Nothing) else {
            unreachable!()
        };
        self.pass_step::<Brand>(seat, own, family, lane);
        Some(sv)
    }
}
