// The steps on words, each of one kind.
ghost use Rattle.std.specs.Prelude.{◌≡◌, ◌<◌, ◌≤◌, length};
ghost use Rattle.atomic_table.specs.Table.{rest};
ghost use Rattle.sv_rule.specs.SlotPlays.{Looked, PutBack, Used, counted, rested};
ghost use Rattle.sv_rule.specs.Table.{slot_of};
ghost use Rattle.sv_rule.specs.Views.{away, held};
ghost use Rattle.sv_model.specs.Lists.{same, total};
ghost use Rattle.sv_rule.specs.ReferencePlays.{CanAdd, Dropped, MayDropAt, added};
ghost use Rattle.sv_rule.specs.RoundPlays.{framed};
ghost use Rattle.sv_slots.specs.Seats.{CarriesNothing, CarriesRef, IsLane, Lends, bodied};

use crate::table::{Core, MAX_HAND, slot_word_of};
use atomic_table::Seat;
use sv_model::SvRef;
use sv_rule::{
    Add, Counting, Embodied, Frame, Look, Named, Parts, Placed, PutSlot, Rest, StoredOf, Subtract,
    Use, View,
};

impl<P: Parts> Core<P> {
    // Kind 12.
    pub(crate) fn use_step<J: Placed, K: Counting>(
        &self,
        seat: &mut Seat<StoredOf<P>, View>,
        lane: u8,
        family: u8,
        _count: u8,
    ) -> u64
        requires table { seat.old.table_id ≡ self.now.table.shared.table_id }
        requires family { (J.family ≡ family) × (family < 16) }
        requires lane { IsLane seat.old.me.0 lane }
        requires free { slot_of seat.old.me.0 J.family ≡ away }
        requires count { K.count ≡ _count }
        ensures same { (seat.new.table_id ≡ seat.old.table_id) × (seat.new.id ≡ seat.old.id) }
        ensures found { Used P.body J.family _count seat.old.me result seat.new.me }
    {
        let word = slot_word_of(lane, family);
        self.table.shared.swap::<Use<P, J, K>>(seat, word, 1)
    }

    // Kind 13.
    pub(crate) fn put_step<J: Placed, K: Named>(
        &self,
        seat: &mut Seat<StoredOf<P>, View>,
        lane: u8,
        family: u8,
        pack: u64,
    ) -> u64
        requires table { seat.old.table_id ≡ self.now.table.shared.table_id }
        requires family { (J.family ≡ family) × (family < 16) }
        requires pack { (K.pack ≡ pack) × (256 ≤ pack) }
        requires lane { IsLane seat.old.me.0 lane }
        requires borrow { Lends seat.old.me.0 J.family K.pack }
        requires front { CarriesRef P.body seat.old.me.0 lane J.family K.pack seat.old.me.1 }
        ensures same { (seat.new.table_id ≡ seat.old.table_id) × (seat.new.id ≡ seat.old.id) }
        ensures found { PutBack J.family K.pack seat.old.me result seat.new.me }
    {
        let word = slot_word_of(lane, family);
        self.table
            .shared
            .compare_exchange::<PutSlot<P, J, K>>(seat, word, 1, pack)
    }

    // Kind 15.
    pub(crate) fn rest_step<J: Placed, K: Named, L: Counting>(
        &self,
        seat: &mut Seat<StoredOf<P>, View>,
        lane: u8,
        family: u8,
        _pack: u64,
        _count: u8,
    )
        requires table { seat.old.table_id ≡ self.now.table.shared.table_id }
        requires family { (J.family ≡ family) × (family < 16) }
        requires pack { (K.pack ≡ _pack) × (L.count ≡ _count) }
        requires lane { IsLane seat.old.me.0 lane }
        requires held { slot_of seat.old.me.0 J.family ≡ held K.pack }
        requires front { CarriesNothing lane J.family seat.old.me.1 }
        requires room { length seat.old.me.0.hand < MAX_HAND }
        ensures same { (seat.new.table_id ≡ seat.old.table_id) × (seat.new.id ≡ seat.old.id) }
        ensures rested { seat.new.me ≡ (counted 0 _count 0 (rested J.family _pack seat.old.me.0), rest seat.old.me.1) }
    {
        let word = slot_word_of(lane, family);
        self.table.shared.swap::<Rest<J, K, L>>(seat, word, 0);
    }

    // Kind 5.
    pub(crate) fn look_step<J: Placed>(
        &self,
        seat: &mut Seat<StoredOf<P>, View>,
        _lane: u8,
        family: u8,
    ) -> u64
        requires table { seat.old.table_id ≡ self.now.table.shared.table_id }
        requires lane { IsLane seat.old.me.0 _lane }
        requires family { (J.family ≡ family) × (family < 16) }
        ensures same { (seat.new.table_id ≡ seat.old.table_id) × (seat.new.id ≡ seat.old.id) }
        ensures looked { Looked J.family seat.old.me result seat.new.me }
    {
        self.table
            .shared
            .load::<Look<J>>(seat, 66 + usize::from(family))
    }

    // Kind 9.
    pub(crate) fn add_step<J: Embodied>(
        &self,
        seat: &mut Seat<StoredOf<P>, View>,
        _lane: u8,
        _of: &SvRef<P::Body>,
        pack: u64,
    )
        requires table { seat.old.table_id ≡ self.now.table.shared.table_id }
        requires lane { IsLane seat.old.me.0 _lane }
        requires bodied { J.bodied ≡ bodied P.body _of.now }
        requires pack { (pack ≡ _of.now.pack) × (256 ≤ pack) }
        requires held { CanAdd (bodied P.body _of.now) seat.old.me.0 }
        requires room { length seat.old.me.0.hand < MAX_HAND }
        ensures same { (seat.new.table_id ≡ seat.old.table_id) × (seat.new.id ≡ seat.old.id) }
        ensures added { seat.new.me ≡ (added (bodied P.body _of.now) seat.old.me.0, seat.old.me.1) }
    {
        let word = (83 + pack % 256) as usize;
        self.table.shared.fetch_add::<Add<J>>(seat, word, 1);
    }

    // Kind 10.
    pub(crate) fn subtract_step<J: Named>(
        &self,
        seat: &mut Seat<StoredOf<P>, View>,
        _lane: u8,
        pack: u64,
    ) -> u64
        requires table { seat.old.table_id ≡ self.now.table.shared.table_id }
        requires lane { IsLane seat.old.me.0 _lane }
        requires pack { (pack ≡ J.pack) × (256 ≤ pack) }
        requires held { 0 < total (same pack) seat.old.me.0.hand }
        requires may { MayDropAt pack seat.old.me.0.seat.lanes seat.old.me.0.hand seat.old.me.0.locks.db }
        ensures same { (seat.new.table_id ≡ seat.old.table_id) × (seat.new.id ≡ seat.old.id) }
        ensures dropped { Dropped pack seat.old.me result seat.new.me }
    {
        let word = (83 + pack % 256) as usize;
        self.table.shared.fetch_sub::<Subtract<J>>(seat, word, 1)
    }

    // Kind 7.
    pub(crate) fn frame_step(&self, seat: &mut Seat<StoredOf<P>, View>, _lane: u8) -> u64
        requires table { seat.old.table_id ≡ self.now.table.shared.table_id }
        requires lane { IsLane seat.old.me.0 _lane }
        ensures same { (seat.new.table_id ≡ seat.old.table_id) × (seat.new.id ≡ seat.old.id) }
        ensures framed { seat.new.me ≡ (framed result seat.old.me.0, seat.old.me.1) }
    {
        self.table.shared.load::<Frame>(seat, 82)
    }
}
