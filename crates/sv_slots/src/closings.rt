// The end of a table: all seats come back, and then the state and the directory.
ghost use Rattle.std.specs.Prelude.{◌≡◌, ◌<◌, ◌+◌};
ghost use Rattle.std.specs.Mem.Slots.{slots_filled, slots_items, slots_len};
ghost use mathlib.Core.Option.{some};
ghost use lib.ListN.{get_elem?};
ghost use Rattle.sv_rule.specs.Closings.{IsEnd};
ghost use Rattle.sv_rule.specs.SeatPlays.{IsIdle, IsLast};
ghost use Rattle.sv_slots.specs.Known.{table_of, view_of};
ghost use Rattle.sv_slots.specs.Closings.{CanClose, FilledFrom, gathered_all, views_of};

use crate::table::{Core, LaneSeat};
use atomic_table::Closed;
use std::alloc::Global;
use sv_rule::{Parts, Stored};

// Takes the first slot that still has its value.
fn take_next<S>(closed: &mut Closed<S, Global>, slot: usize) -> S
    requires first { (slot < slots_len closed.old.slots) × FilledFrom slot (slots_filled closed.old.slots) (slots_len closed.old.slots) }
    ensures value { get_elem? (slots_items closed.old.slots) slot ≡ some result }
    ensures same { (slots_items closed.new.slots ≡ slots_items closed.old.slots) × (slots_len closed.new.slots ≡ slots_len closed.old.slots) }
    ensures next { FilledFrom (slot + 1) (slots_filled closed.new.slots) (slots_len closed.new.slots) }
{
    closed.take(slot)
}

// Drops what is left, from slot 2 on.
fn drop_others<S: Drop>(mut closed: Closed<S, Global>)
    requires { FilledFrom 2 (slots_filled closed.slots) (slots_len closed.slots) }
{
    let mut slot = 2;
    while slot < closed.slot_count() {
        drop(take_next(&mut closed, slot));
        slot += 1;
    }
    closed.free();
}

impl<P: Parts> Core<P> {
    // The first seat takes all others in.
    fn gather_all(&self, mut seats: Vec<LaneSeat<P>>) -> LaneSeat<P>
        requires { CanClose (table_of self.now) seats.items }
        ensures table { result.seat.table_id ≡ (table_of self.now) }
        ensures view { view_of result ≡ gathered_all (views_of seats.items) }
    {
        let mut first = seats.remove(0);
        while let Some(other) = seats.pop() {
            self.gather(&mut first, other);
        }
        first
    }

    fn end(self, seat: LaneSeat<P>) -> (P::State, P::Dir)
        requires table { seat.seat.table_id ≡ (table_of self) }
        requires last { IsLast (view_of seat) × IsIdle (view_of seat) }
        ensures { IsEnd (P.books result.0) (P.disk result.1) (view_of seat) }
    {
        let Core { table } = self;
        let LaneSeat {
            lane: _,
            seat,
            out: _,
            counts: _,
        } = seat;
        let mut closed = table.close_with(seat);
        let Stored::State(state) = take_next(&mut closed, 0) else {
            unreachable!()
        };
        let Stored::Dir(dir) = take_next(&mut closed, 1) else {
            unreachable!()
        };
        drop_others(closed);
        (state, dir)
    }

    /// Takes all seats back, that of lane 0 first, and gives the state and the directory. The cells are dropped.
    pub fn close(self, seats: Vec<LaneSeat<P>>) -> (P::State, P::Dir)
        requires { CanClose (table_of self) seats.items }
        ensures { IsEnd (P.books result.0) (P.disk result.1) (gathered_all (views_of seats.items)) }
    {
        let last = self.gather_all(seats);
        self.end(last)
    }
}
