// The takings and givings of locks, by a seat that stands alone.
ghost use Rattle.std.specs.Prelude.{[], None, ◌∷◌, ◌≡◌, ◌<◌};
ghost use Rattle.atomic_table.specs.Table.{rest};
ghost use Rattle.sv_rule.specs.Blanks.{desk_of};
ghost use Rattle.sv_rule.specs.LockPlays.{AreTold, FindsAsBody, FindsAsBooks, IsTold, MayGiveCell, MayGiveDb, MayGiveDir, MayWriteCell, TookCell, gave_cell, gave_db, gave_dir, took_cell, took_db, took_dir, wrote_cell};
ghost use Rattle.sv_rule.specs.Table.{cell_word};
ghost use Rattle.sv_slots.specs.Seats.{IsLane, StartsAt};

use crate::table::{Core, cell_word_of};
use atomic_table::Seat;
use std::hint::spin_loop;
use std::marker::Brand;
use std::sync::Wait;
use std::thread::yield_now;
use sv_rule::{
    Celled, Cuts, GiveCell, GiveDb, GiveDir, Parts, Reports, Stored, StoredOf, TakeCell, TakeDb,
    TakeDir, Tasked, View, WriteCell, Writes,
};

/// So often a lane tries for a lock before it lets other threads run.
const SPINS: u32 = 16;

// The lock was taken: a short pause, and after a few of them a longer one.
fn pause(tries: u32) -> u32 {
    if tries < SPINS {
        spin_loop();
        tries + 1
    } else {
        yield_now();
        tries
    }
}

impl<P: Parts> Core<P> {
    pub(crate) fn take_state_at<R: Wait>(
        &self,
        rt: &R,
        seat: &mut Seat<StoredOf<P>, View>,
        _lane: u8,
    ) -> P::State
        requires table { seat.old.table_id ≡ self.now.table.shared.table_id }
        requires lane { IsLane seat.old.me.0 _lane }
        ensures same { (seat.new.table_id ≡ seat.old.table_id) × (seat.new.id ≡ seat.old.id) }
        ensures took { seat.new.me ≡ (took_db (P.books result) seat.old.me.0, (0, Stored.Nothing) ∷ seat.old.me.1) }
        ensures told { IsTold seat.old.me.0 (P.books result) }
    {
        let shared = &self.table.shared;
        let mut tries = 0;
        for _ in rt.forever() {
            if shared.compare_exchange::<TakeDb<P>>(seat, 0, 0, 1) == 0 {
                let Stored::State(state) = shared.exchange(seat, 0, Stored::Nothing) else {
                    unreachable!()
                };
                return state;
            }
            tries = pause(tries);
        }
        unreachable!()
    }

    pub(crate) fn give_state_at<J: Tasked>(
        &self,
        seat: &mut Seat<StoredOf<P>, View>,
        state: P::State,
    )
        requires table { seat.old.table_id ≡ self.now.table.shared.table_id }
        requires lock { MayGiveDb seat.old.me.0 (P.books state) J.task }
        requires front { StartsAt 0 seat.old.me.1 }
        ensures same { (seat.new.table_id ≡ seat.old.table_id) × (seat.new.id ≡ seat.old.id) }
        ensures gave { seat.new.me ≡ (gave_db (P.books state) J.task seat.old.me.0, rest seat.old.me.1) }
    {
        let shared = &self.table.shared;
        drop(shared.exchange(seat, 0, Stored::State(state)));
        shared.swap::<GiveDb<P, J>>(seat, 0, 0);
    }

    pub(crate) fn take_dir_at<R: Wait>(
        &self,
        rt: &R,
        seat: &mut Seat<StoredOf<P>, View>,
        _lane: u8,
    ) -> P::Dir
        requires table { seat.old.table_id ≡ self.now.table.shared.table_id }
        requires lane { IsLane seat.old.me.0 _lane }
        ensures same { (seat.new.table_id ≡ seat.old.table_id) × (seat.new.id ≡ seat.old.id) }
        ensures took { seat.new.me ≡ (took_dir (P.disk result) seat.old.me.0, (1, Stored.Nothing) ∷ seat.old.me.1) }
        ensures told { AreTold seat.old.me.0 (P.disk result) }
    {
        let shared = &self.table.shared;
        let mut tries = 0;
        for _ in rt.forever() {
            if shared.compare_exchange::<TakeDir<P>>(seat, 1, 0, 1) == 0 {
                let Stored::Dir(dir) = shared.exchange(seat, 1, Stored::Nothing) else {
                    unreachable!()
                };
                return dir;
            }
            tries = pause(tries);
        }
        unreachable!()
    }

    pub(crate) fn give_dir_at<J: Reports>(&self, seat: &mut Seat<StoredOf<P>, View>, dir: P::Dir)
        requires table { seat.old.table_id ≡ self.now.table.shared.table_id }
        requires lock { MayGiveDir seat.old.me.0 (P.disk dir) J.task J.reads J.names J.lists J.rise }
        requires front { StartsAt 1 seat.old.me.1 }
        ensures same { (seat.new.table_id ≡ seat.old.table_id) × (seat.new.id ≡ seat.old.id) }
        ensures gave { seat.new.me ≡ (gave_dir J.task J.reads J.names J.lists J.rise seat.old.me.0, rest seat.old.me.1) }
    {
        let shared = &self.table.shared;
        drop(shared.exchange(seat, 1, Stored::Dir(dir)));
        shared.swap::<GiveDir<J>>(seat, 1, 0);
    }

    // Kind 1 of a cell.
    fn take_cell_step<J: Celled>(
        &self,
        seat: &mut Seat<StoredOf<P>, View>,
        _lane: u8,
        cell: u8,
    ) -> u64
        requires table { seat.old.table_id ≡ self.now.table.shared.table_id }
        requires lane { IsLane seat.old.me.0 _lane }
        requires cell { (J.cell ≡ cell) × (cell < 64) }
        requires free { seat.old.me.0.locks.cell ≡ None }
        ensures same { (seat.new.table_id ≡ seat.old.table_id) × (seat.new.id ≡ seat.old.id) }
        ensures took { TookCell P.cell cell seat.old.me result seat.new.me }
    {
        let word = cell_word_of(cell);
        self.table
            .shared
            .compare_exchange::<TakeCell<P, J>>(seat, word, 0, 1)
    }

    pub(crate) fn take_cell_at<R: Wait>(
        &self,
        rt: &R,
        seat: &mut Seat<StoredOf<P>, View>,
        lane: u8,
        cell: u8,
    ) -> P::Cell
        requires table { seat.old.table_id ≡ self.now.table.shared.table_id }
        requires lane { IsLane seat.old.me.0 lane }
        requires free { (cell < 64) × (seat.old.me.0.locks.cell ≡ None) }
        ensures same { (seat.new.table_id ≡ seat.old.table_id) × (seat.new.id ≡ seat.old.id) }
        ensures took { seat.new.me ≡ (took_cell cell (P.cell result) seat.old.me.0, (cell_word cell, Stored.Nothing) ∷ seat.old.me.1) }
        ensures books { FindsAsBooks seat.old.me.0 cell (P.cell result) }
        ensures body { FindsAsBody seat.old.me.0 cell (P.cell result) }
    {
        let slot = cell_word_of(cell);
        let mut tries = 0;
        for _ in rt.forever() {
            if self.take_cell_step::<Brand>(seat, lane, cell) == 0 {
                let Stored::Cell(found) = self.table.shared.exchange(seat, slot, Stored::Nothing)
                else {
                    unreachable!()
                };
                return found;
            }
            tries = pause(tries);
        }
        unreachable!()
    }

    pub(crate) fn give_cell_at<J: Cuts>(
        &self,
        seat: &mut Seat<StoredOf<P>, View>,
        number: u8,
        cell: P::Cell,
    )
        requires table { seat.old.table_id ≡ self.now.table.shared.table_id }
        requires cell { number < 64 }
        requires lock { MayGiveCell seat.old.me.0 number (P.cell cell) J.family J.cut }
        requires front { StartsAt (cell_word number) seat.old.me.1 }
        ensures same { (seat.new.table_id ≡ seat.old.table_id) × (seat.new.id ≡ seat.old.id) }
        ensures gave { seat.new.me ≡ (gave_cell J.family J.cut seat.old.me.0, rest seat.old.me.1) }
    {
        let word = cell_word_of(number);
        let shared = &self.table.shared;
        drop(shared.exchange(seat, word, Stored::Cell(cell)));
        shared.swap::<GiveCell<J>>(seat, word, 0);
    }

    pub(crate) fn write_cell_at<J: Writes>(
        &self,
        seat: &mut Seat<StoredOf<P>, View>,
        number: u8,
        cell: P::Cell,
        _state: &P::State,
    )
        requires table { seat.old.table_id ≡ self.now.table.shared.table_id }
        requires cell { (J.cell ≡ number) × (number < 64) }
        requires books { (J.books ≡ P.books _state.now) × (J.desk ≡ desk_of seat.old.me.0) }
        requires lock { MayWriteCell seat.old.me.0 J.cell J.books J.task J.more (P.cell cell) J.family J.seen }
        requires front { StartsAt (cell_word number) seat.old.me.1 }
        ensures same { (seat.new.table_id ≡ seat.old.table_id) × (seat.new.id ≡ seat.old.id) }
        ensures wrote { seat.new.me ≡ (wrote_cell J.desk J.cell J.books J.task J.more J.family J.seen seat.old.me.0, rest seat.old.me.1) }
    {
        let word = cell_word_of(number);
        let shared = &self.table.shared;
        drop(shared.exchange(seat, word, Stored::Cell(cell)));
        shared.swap::<WriteCell<J>>(seat, word, 0);
    }
}
