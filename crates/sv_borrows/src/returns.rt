// A lane gives a borrow back.
ghost use Rattle.std.specs.Prelude.{[], ◌<◌, ◌≡◌, ◌≤◌};
ghost use Rattle.sv_borrows.specs.Desks.{owed_of};
ghost use Rattle.sv_borrows.specs.Lending.{Drops, GivesBack, IsFree, IsNotLent, less};
ghost use Rattle.sv_borrows.specs.Parts.{body_of};
ghost use Rattle.sv_model.specs.Lists.{Every, In, same, total};
ghost use Rattle.sv_slots.specs.Known.{CameWith, IsSameSeat, table_of, view_of};
ghost use Rattle.sv_slots.specs.Seats.{Lends, bodied};

use crate::cleanups::clean;
use crate::parts::{Database, Seat, Table};
use std::marker::Brand;
use std::sync::Wait;
use sv_dir::Dir;
use sv_model::SvRef;
use sv_objects::Body;
use sv_slots::{Back, Borrow, Sub};

/// What the lane owes after a drop is cleaned up, for which the DB lock is taken. Takes no memory.
pub fn settle<D: Dir + Drop, R: Wait>(rt: &R, core: &Table<D>, seat: &mut Seat<D>, left: Sub)
    requires table { CameWith (table_of core.now) seat.old }
    requires free { IsFree (view_of seat.old) }
    requires owed { (view_of seat.old).owes ≡ owed_of left }
    requires big { Every (λ p. 256 ≤ p) (owed_of left) }
    ensures same { IsSameSeat seat.old seat.new }
    ensures settled { IsNotLent (view_of seat.old) (view_of seat.new) }
{
    let mut held = core.take_state(rt, seat);
    clean(rt, core, seat, &mut held, left);
    core.give_state::<Brand>(seat, held);
}

/// Drops a reference that the lane has in hand. Where it was the last, the DB lock is taken for the cleanup. Takes no
/// memory.
pub fn let_go<D: Dir + Drop, R: Wait>(
    rt: &R,
    core: &Table<D>,
    seat: &mut Seat<D>,
    held: SvRef<Body>,
)
    requires table { CameWith (table_of core.now) seat.old }
    requires free { IsFree (less held.pack (view_of seat.old)) × ((view_of seat.old).owes ≡ []) }
    requires held { (256 ≤ held.pack) × (0 < total (same held.pack) (view_of seat.old).hand) }
    ensures same { IsSameSeat seat.old seat.new }
    ensures drops { Drops held.pack (view_of seat.old) (view_of seat.new) }
{
    let left = core.drop_ref(seat, held);
    if let Sub::Last(_) = &left {
        settle(rt, core, seat, left);
    }
}

/// Gives a borrow back. The lane's slot caches it, unless a sweep was there: then the reference is dropped, and where it
/// was the last the DB lock is taken for the cleanup. Takes no memory.
pub fn give<D: Dir + Drop, R: Wait>(
    rt: &R,
    core: &Table<D>,
    seat: &mut Seat<D>,
    lent: Borrow<Database<D>>,
)
    requires table { CameWith (table_of core.now) seat.old }
    requires free { IsFree (view_of seat.old) × ((view_of seat.old).owes ≡ []) }
    requires lent { (lent.family < 16) × (256 ≤ lent.sv.pack) × Lends (view_of seat.old) lent.family lent.sv.pack }
    requires known { In (bodied body_of lent.sv) (view_of seat.old).known.bodies }
    ensures same { IsSameSeat seat.old seat.new }
    ensures given { GivesBack lent.family lent.sv.pack (view_of seat.old) (view_of seat.new) }
{
    let Back::Swept(sv) = core.give_back(seat, lent) else {
        return;
    };
    let_go(rt, core, seat, sv);
}
