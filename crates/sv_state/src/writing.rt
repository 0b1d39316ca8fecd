// Writes, and the switch to a new memtable.
ghost use Rattle.std.specs.Prelude.{◌≡◌, ◌<◌, ◌+◌, ◌∷◌, [], ℕ, IfOk, OnErr, length};
ghost use Rattle.std.specs.Arc.{arc_value};
ghost use Rattle.sv_model.specs.Journal.{of_family};
ghost use Rattle.sv_model.specs.Refusals.{Refuses, first_due};
ghost use Rattle.sv_cells.specs.Calls.{memtables_refusal};
ghost use Rattle.sv_registry.specs.Calls.{make_refusal};
ghost use Rattle.sv_laws.specs.NewCurrents.{IsSwitched};
ghost use Rattle.sv_laws.specs.Writes.{IsWritten};
ghost use Rattle.sv_state.specs.Follows.{Follows};
ghost use Rattle.sv_state.specs.Writing.{CanSwitch, CanWrite, TellsSwitch, write_of};

use crate::installs::{Install, body_at, put_current};
use crate::state::State;
use std::sync::Arc;
use sv_memtable::Frozen;
use sv_model::{FamilyId, MemId, Refusal, Row, Write};
use sv_objects::Held;

impl State {
    /// Accepts a write of the lane into the active memtable of the family's current SuperVersion. Gives its number in
    /// its family. Takes no memory, since there is room.
    pub fn write_done(&mut self, lane: u8, family: FamilyId, row: Row) -> u64
        requires { CanWrite self.old lane family }
        ensures written { (can : CanWrite self.old lane family) → IsWritten self.old.books self.new.books family (write_of lane family can.it.descriptor.active row) }
        ensures number { result ≡ length (of_family family self.new.books.journal) }
        ensures spare { self.new.spare + 1 ≡ self.old.spare }
        ensures follows { Follows self.old.books self.new.books }
    {
        let mem = body_at(&self.held, family).descriptor.active;
        self.journal.push(write_of(lane, family, mem, row))
    }

    /// Freezes the family's active memtable, of which these are the frozen rows: it is the last of a new list, and a new
    /// memtable without rows is active. Refused as `TooManyMemtables`, then as `RegisterFull` and `TooManyLive`.
    pub fn switch(&mut self, family: FamilyId, frozen: Arc<Frozen>) -> Result<Install, Refusal>
        requires { CanSwitch self.old.books family (arc_value frozen) }
        ensures switched { IfOk result (λ _. IsSwitched self.old.books self.new.books family) }
        ensures tells { IfOk result (TellsSwitch self.old.books self.new.books family) }
        ensures refused { Refuses (first_due (memtables_refusal self.old.books.memtables ∷ make_refusal self.old.books.supers ∷ [])) result }
        ensures kept { OnErr result (self.new ≡ self.old) }
        ensures spare { self.new.spare ≡ self.old.spare }
        ensures follows { Follows self.old.books self.new.books }
    {
        let body = body_at(&self.held, family);
        let (current, cell) = (body.descriptor, body.cell);
        let mut held = Held::of(self.alloc, body, 0)?;
        held.push(cell, frozen)?;
        let base = self.journal.written(family);
        let made = self.objects.make_switched(self.alloc, current, base, held)?;
        let new = made.pack;
        let vacant = Some((made.body.cell, made.body.descriptor.active));
        let old = put_current(&mut self.tops, &mut self.held, family, made);
        Ok(Install {
            family,
            new,
            old,
            vacant,
        })
    }
}

fn write_of(lane: u8, family: FamilyId, mem: MemId, row: Row) -> Write
    ensures { result ≡ write_of lane family mem row }
{
    let Row { key, op } = row;
    Write {
        family,
        key,
        op,
        mem,
        lane,
    }
}
