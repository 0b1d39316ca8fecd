// What takings and givings of locks tell, and the making and joining of seats.
use crate::StoredOf;
use crate::parts::Parts;
use crate::picks::{Celled, Cuts, Reports, Tasked, Writes};
use crate::view::View;
use atomic_table::{Join, Play, Split};
use std::marker::PhantomData;

/// Kind 1, lock take, of the DB lock.
pub struct TakeDb<P> {
    of: PhantomData<P>,
}

impl<P: Parts> Play<StoredOf<P>, View> for TakeDb<P> {
    ghost use Rattle.sv_rule.specs.LockPlays.{TookDb};

    ghost then = { λ st. TookDb P.books };
}

/// Kind 2, lock give, of the DB lock.
pub struct GiveDb<P, J> {
    of: PhantomData<(P, J)>,
}

impl<P: Parts, J: Tasked> Play<StoredOf<P>, View> for GiveDb<P, J> {
    ghost use Rattle.sv_rule.specs.LockPlays.{GaveDb};

    ghost then = { λ st. GaveDb P.books J.task };
}

/// Kind 1 of a cell.
pub struct TakeCell<P, J> {
    of: PhantomData<(P, J)>,
}

impl<P: Parts, J: Celled> Play<StoredOf<P>, View> for TakeCell<P, J> {
    ghost use Rattle.sv_rule.specs.LockPlays.{TookCell};

    ghost then = { λ st. TookCell P.cell J.cell };
}

/// Kind 2 of a cell, as it was found.
pub struct GiveCell<J> {
    of: PhantomData<J>,
}

impl<S, J: Cuts> Play<S, View> for GiveCell<J> {
    ghost use Rattle.sv_rule.specs.LockPlays.{GaveCell};

    ghost then = { λ st. GaveCell J.family J.cut };
}

/// Kind 2 of a cell, by the lane that has the DB lock.
pub struct WriteCell<J> {
    of: PhantomData<J>,
}

impl<S, J: Writes> Play<S, View> for WriteCell<J> {
    ghost use Rattle.sv_rule.specs.LockPlays.{WroteCell};

    ghost then = { λ st. WroteCell J.desk J.cell J.books J.task J.more J.family J.seen };
}

/// Kind 1 of the directory.
pub struct TakeDir<P> {
    of: PhantomData<P>,
}

impl<P: Parts> Play<StoredOf<P>, View> for TakeDir<P> {
    ghost use Rattle.sv_rule.specs.LockPlays.{TookDir};

    ghost then = { λ st. TookDir P.disk };
}

/// Kind 2 of the directory.
pub struct GiveDir<J> {
    of: PhantomData<J>,
}

impl<S, J: Reports> Play<S, View> for GiveDir<J> {
    ghost use Rattle.sv_rule.specs.LockPlays.{GaveDir};

    ghost then = { λ st. GaveDir J.task J.reads J.names J.lists J.rise };
}

/// Kind 3, seat split.
pub struct SplitLane;

impl Split<View> for SplitLane {
    ghost use Rattle.sv_rule.specs.SeatPlays.{split_left, split_right};

    ghost left = { split_left };

    ghost right = { split_right };
}

/// Kind 4, seat join.
pub struct Gather;

impl Join<View> for Gather {
    ghost use Rattle.sv_rule.specs.SeatPlays.{gathered};
    ghost use Rattle.sv_rule.specs.Blanks.{nobody};

    ghost both = { gathered };

    ghost spent = { nobody };
}
