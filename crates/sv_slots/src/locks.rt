// The three locks: of the state, of the directory, and of each cell.
ghost use Rattle.std.specs.Prelude.{None, Some, ◌≡◌, ◌<◌};
ghost use Rattle.sv_rule.specs.Blanks.{desk_of};
ghost use Rattle.sv_rule.specs.LockPlays.{AreTold, FindsAsBody, FindsAsBooks, IsTold, MayGiveCell, MayGiveDb, MayGiveDir, MayWriteCell, gave_cell, gave_db, gave_dir, took_cell, took_db, took_dir, wrote_cell};
ghost use Rattle.sv_slots.specs.Known.{CameWith, IsSameSeat, table_of, view_of};

use crate::table::{Core, LaneSeat, cell_word_of};
use std::sync::Wait;
use sv_rule::{Cuts, Parts, Reports, Tasked, Writes};

impl<P: Parts> Core<P> {
    /// Takes the DB lock, and the state.
    pub fn take_state<R: Wait>(&self, rt: &R, seat: &mut LaneSeat<P>) -> P::State
        requires table { CameWith (table_of self.now) seat.old }
        requires free { (view_of seat.old).locks.db ≡ None }
        ensures same { IsSameSeat seat.old seat.new }
        ensures took { view_of seat.new ≡ took_db (P.books result) (view_of seat.old) }
        ensures told { IsTold (view_of seat.old) (P.books result) }
    {
        let lane = seat.lane;
        let state = self.take_state_at(rt, &mut seat.seat, lane);
        seat.out.insert(0, 0);
        state
    }

    /// Gives the state back, and the DB lock. The caller picks what the books have of its own from now on.
    pub fn give_state<J: Tasked>(&self, seat: &mut LaneSeat<P>, state: P::State)
        requires table { CameWith (table_of self.now) seat.old }
        requires lock { MayGiveDb (view_of seat.old) (P.books state) J.task }
        ensures same { IsSameSeat seat.old seat.new }
        ensures gave { view_of seat.new ≡ gave_db (P.books state) J.task (view_of seat.old) }
    {
        seat.bring(0);
        self.give_state_at::<J>(&mut seat.seat, state);
        seat.out.remove(0);
    }

    /// Takes the directory's lock, and the directory.
    pub fn take_dir<R: Wait>(&self, rt: &R, seat: &mut LaneSeat<P>) -> P::Dir
        requires table { CameWith (table_of self.now) seat.old }
        requires free { (view_of seat.old).locks.dir ≡ None }
        ensures same { IsSameSeat seat.old seat.new }
        ensures took { view_of seat.new ≡ took_dir (P.disk result) (view_of seat.old) }
        ensures told { AreTold (view_of seat.old) (P.disk result) }
    {
        let lane = seat.lane;
        let dir = self.take_dir_at(rt, &mut seat.seat, lane);
        seat.out.insert(0, 1);
        dir
    }

    /// Gives the directory back, and its lock. The caller picks what it did to it.
    pub fn give_dir<J: Reports>(&self, seat: &mut LaneSeat<P>, dir: P::Dir)
        requires table { CameWith (table_of self.now) seat.old }
        requires lock { MayGiveDir (view_of seat.old) (P.disk dir) J.task J.reads J.names J.lists J.rise }
        ensures same { IsSameSeat seat.old seat.new }
        ensures gave { view_of seat.new ≡ gave_dir J.task J.reads J.names J.lists J.rise (view_of seat.old) }
    {
        seat.bring(1);
        self.give_dir_at::<J>(&mut seat.seat, dir);
        seat.out.remove(0);
    }

    /// Takes the lock of a cell, and the cell.
    pub fn take_cell<R: Wait>(&self, rt: &R, seat: &mut LaneSeat<P>, cell: u8) -> P::Cell
        requires table { CameWith (table_of self.now) seat.old }
        requires free { (cell < 64) × ((view_of seat.old).locks.cell ≡ None) }
        ensures same { IsSameSeat seat.old seat.new }
        ensures took { view_of seat.new ≡ took_cell cell (P.cell result) (view_of seat.old) }
        ensures books { FindsAsBooks (view_of seat.old) cell (P.cell result) }
        ensures body { FindsAsBody (view_of seat.old) cell (P.cell result) }
    {
        let lane = seat.lane;
        let found = self.take_cell_at(rt, &mut seat.seat, lane, cell);
        seat.out.insert(0, cell_word_of(cell) as u16);
        found
    }

    /// Gives a cell back as it was found, and its lock, without the DB lock. The caller picks the cut of its read.
    pub fn give_cell<J: Cuts>(&self, seat: &mut LaneSeat<P>, number: u8, cell: P::Cell)
        requires table { CameWith (table_of self.now) seat.old }
        requires cell { number < 64 }
        requires lock { MayGiveCell (view_of seat.old) number (P.cell cell) J.family J.cut }
        ensures same { IsSameSeat seat.old seat.new }
        ensures gave { view_of seat.new ≡ gave_cell J.family J.cut (view_of seat.old) }
    {
        seat.bring(cell_word_of(number) as u16);
        self.give_cell_at::<J>(&mut seat.seat, number, cell);
        seat.out.remove(0);
    }

    /// Gives a cell back, and its lock, with the DB lock. The books in hand are those of the state from now on.
    pub fn write_cell<J: Writes>(
        &self,
        seat: &mut LaneSeat<P>,
        number: u8,
        cell: P::Cell,
        state: &P::State,
    )
        requires table { CameWith (table_of self.now) seat.old }
        requires cell { (J.cell ≡ number) × (number < 64) }
        requires books { (J.books ≡ P.books state.now) × (J.desk ≡ desk_of (view_of seat.old)) }
        requires lock { MayWriteCell (view_of seat.old) J.cell J.books J.task J.more (P.cell cell) J.family J.seen }
        ensures same { IsSameSeat seat.old seat.new }
        ensures wrote { view_of seat.new ≡ wrote_cell J.desk J.cell J.books J.task J.more J.family J.seen (view_of seat.old) }
    {
        seat.bring(cell_word_of(number) as u16);
        self.write_cell_at::<J>(&mut seat.seat, number, cell, state);
        seat.out.remove(0);
    }
}
