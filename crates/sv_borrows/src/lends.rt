// A lane borrows the current SuperVersion of a family.
ghost use Rattle.std.specs.Prelude.{[], IfErr, IfOk, length, ◌<◌, ◌≡◌, ◌≤◌};
ghost use Rattle.sv_borrows.specs.Desks.{IsAtDesk, owed_of};
ghost use Rattle.sv_borrows.specs.Lending.{Borrows, BorrowsNone, IsFree, IsLent, IsNotLent, MayLend};
ghost use Rattle.sv_borrows.specs.Parts.{body_of};
ghost use Rattle.sv_model.specs.Lists.{Every, at};
ghost use Rattle.sv_rule.specs.ReferencePlays.{added};
ghost use Rattle.sv_rule.specs.SlotPlays.{IsShown};
ghost use Rattle.sv_rule.specs.Table.{slot_of};
ghost use Rattle.sv_rule.specs.Views.{away};
ghost use Rattle.sv_slots.specs.Borrows.{borrowed};
ghost use Rattle.sv_slots.specs.Known.{CameWith, IsSameSeat, table_of, view_of};
ghost use Rattle.sv_slots.specs.Seats.{bodied};
ghost use Rattle.sv_state.specs.Currents.{HasCurrentAt};

use crate::cleanups::clean;
use crate::parts::{Database, Held, Seat, Table};
use std::marker::Brand;
use std::sync::Wait;
use sv_dir::Dir;
use sv_model::{FamilyId, OutOfMemory};
use sv_slots::{Borrow, Miss, Sub};

// With the DB lock: the slot, which caches nothing, is lent the family's current.
fn lend_current<D: Dir + Drop>(
    core: &Table<D>,
    seat: &mut Seat<D>,
    family: FamilyId,
    held: &Held,
) -> Result<Borrow<Database<D>>, OutOfMemory>
    requires table { CameWith (table_of core.now) seat.old }
    requires desk { IsAtDesk held.now.books [] (view_of seat.old) }
    requires current { (family < 16) × HasCurrentAt held.now.books family }
    requires free { (slot_of (view_of seat.old) family ≡ away) × (at 0 (view_of seat.old).slots.cached family ≡ 0) }
    requires room { length (view_of seat.old).hand < 65500 }
    ensures same { IsSameSeat seat.old seat.new }
    ensures ok { IfOk result (λ b. (b.family ≡ family) × IsShown family (bodied body_of b.sv) × (view_of seat.new ≡ borrowed family b.sv.pack (added (bodied body_of b.sv) (view_of seat.old)))) }
    ensures err { IfErr result (λ _. view_of seat.new ≡ view_of seat.old) }
{
    let fresh = core.add_ref(seat, held.state.current(family))?;
    Ok(core.borrow_locked(seat, family, fresh))
}

// The same after a miss: the DB lock is taken, and what the lane owes is cleaned up.
fn lend_locked<D: Dir + Drop, R: Wait>(
    rt: &R,
    core: &Table<D>,
    seat: &mut Seat<D>,
    family: FamilyId,
    left: Sub,
) -> Result<Borrow<Database<D>>, OutOfMemory>
    requires table { CameWith (table_of core.now) seat.old }
    requires free { IsFree (view_of seat.old) }
    requires lend { MayLend family (view_of seat.old) × (at 0 (view_of seat.old).slots.cached family ≡ 0) }
    requires owed { (view_of seat.old).owes ≡ owed_of left }
    requires big { Every (λ p. 256 ≤ p) (owed_of left) }
    ensures same { IsSameSeat seat.old seat.new }
    ensures ok { IfOk result (λ l. (l.family ≡ family) × IsShown family (bodied body_of l.sv) × IsLent family (bodied body_of l.sv) (view_of seat.old) (view_of seat.new)) }
    ensures err { IfErr result (λ _. IsNotLent (view_of seat.old) (view_of seat.new)) }
{
    let mut held = core.take_state(rt, seat);
    clean(rt, core, seat, &mut held, left);
    let lent = lend_current(core, seat, family, &held);
    core.give_state::<Brand>(seat, held);
    lent
}

/// Borrows the current SuperVersion of a family of which the lane has a handle: what the lane's slot of it caches, where
/// that is current. Else the DB lock is taken.
pub fn lend<D: Dir + Drop, R: Wait>(
    rt: &R,
    core: &Table<D>,
    seat: &mut Seat<D>,
    family: FamilyId,
) -> Result<Borrow<Database<D>>, OutOfMemory>
    requires table { CameWith (table_of core.now) seat.old }
    requires free { IsFree (view_of seat.old) × ((view_of seat.old).owes ≡ []) }
    requires lend { MayLend family (view_of seat.old) }
    ensures same { IsSameSeat seat.old seat.new }
    ensures ok { IfOk result (λ l. (l.family ≡ family) × Borrows family (bodied body_of l.sv) (view_of seat.old) (view_of seat.new)) }
    ensures err { IfErr result (λ _. BorrowsNone family (view_of seat.old) (view_of seat.new)) }
{
    match core.try_borrow(seat, family) {
        Ok(lent) => Ok(lent),
        Err(Miss::Empty) => lend_locked(rt, core, seat, family, Sub::More),
        Err(Miss::Stale { cached, .. }) => {
            let left = core.drop_ref(seat, cached);
            lend_locked(rt, core, seat, family, left)
        }
    }
}
