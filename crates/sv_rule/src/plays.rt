// What each kind of step tells that is on a number, the round, a reference or a slot.
use crate::StoredOf;
use crate::parts::Parts;
use crate::picks::{At, Begun, Cleans, Counting, Creates, Embodied, Ends, Named, Placed, Swaps};
use crate::view::View;
use atomic_table::Play;
use std::marker::PhantomData;

/// Kind 5, number load.
pub struct Look<J> {
    of: PhantomData<J>,
}

impl<S, J: Placed> Play<S, View> for Look<J> {
    ghost use Rattle.sv_rule.specs.SlotPlays.{Looked};

    ghost then = { λ st. Looked J.family };
}

/// Kind 6, number swap.
pub struct Swap<J> {
    of: PhantomData<J>,
}

impl<S, J: Swaps> Play<S, View> for Swap<J> {
    ghost use Rattle.sv_rule.specs.RoundPlays.{Numbered};

    ghost then = { λ st. Numbered J.desk J.family J.pack J.olds };
}

/// Kind 7, round load.
pub struct Frame;

impl<S> Play<S, View> for Frame {
    ghost use Rattle.sv_rule.specs.RoundPlays.{Framed};

    ghost then = { λ st. Framed };
}

/// Kind 8, round add, before a number swap.
pub struct AddRound<J> {
    of: PhantomData<J>,
}

impl<S, J: Begun> Play<S, View> for AddRound<J> {
    ghost use Rattle.sv_rule.specs.RoundPlays.{Rounded};

    ghost then = { λ st. Rounded J.family J.desk };
}

/// Kind 8, round add, where a family's current ends.
pub struct EndCurrent<J> {
    of: PhantomData<J>,
}

impl<S, J: Ends> Play<S, View> for EndCurrent<J> {
    ghost use Rattle.sv_rule.specs.RoundPlays.{EndedCurrent};

    ghost then = { λ st. EndedCurrent J.family J.books J.task J.desk };
}

/// Kind 9, reference add.
pub struct Add<J> {
    of: PhantomData<J>,
}

impl<S, J: Embodied> Play<S, View> for Add<J> {
    ghost use Rattle.sv_rule.specs.ReferencePlays.{Added};

    ghost then = { λ st. Added J.bodied };
}

/// Kind 10, reference sub.
pub struct Subtract<J> {
    of: PhantomData<J>,
}

impl<S, J: Named> Play<S, View> for Subtract<J> {
    ghost use Rattle.sv_rule.specs.ReferencePlays.{Dropped};

    ghost then = { λ st. Dropped J.pack };
}

/// Kind 11, reference set, of a new SuperVersion.
pub struct Create<J> {
    of: PhantomData<J>,
}

impl<S, J: Creates> Play<S, View> for Create<J> {
    ghost use Rattle.sv_rule.specs.ReferencePlays.{Opened};

    ghost then = { λ st. Opened J.family J.bodied J.books J.task J.desk };
}

/// Kind 11, reference set, after a cleanup.
pub struct Clean<J> {
    of: PhantomData<J>,
}

impl<S, J: Cleans> Play<S, View> for Clean<J> {
    ghost use Rattle.sv_rule.specs.ReferencePlays.{Settled};

    ghost then = { λ st. Settled J.pack J.books J.task J.cells J.desk };
}

/// Kind 12, slot use.
pub struct Use<P, J, K> {
    of: PhantomData<(P, J, K)>,
}

impl<P: Parts, J: Placed, K: Counting> Play<StoredOf<P>, View> for Use<P, J, K> {
    ghost use Rattle.sv_rule.specs.SlotPlays.{Used};

    ghost then = { λ st. Used P.body J.family K.count };
}

/// Kind 13, slot put.
pub struct PutSlot<P, J, K> {
    of: PhantomData<(P, J, K)>,
}

impl<P: Parts, J: Placed, K: Named> Play<StoredOf<P>, View> for PutSlot<P, J, K> {
    ghost use Rattle.sv_rule.specs.SlotPlays.{PutBack};

    ghost then = { λ st. PutBack J.family K.pack };
}

/// Kind 14, slot sweep.
pub struct Sweep<P, J> {
    of: PhantomData<(P, J)>,
}

impl<P: Parts, J: At> Play<StoredOf<P>, View> for Sweep<P, J> {
    ghost use Rattle.sv_rule.specs.SweepPlays.{Swept};

    ghost then = { λ st. Swept P.body J.desk J.family J.old J.lane J.taken };
}

/// Kind 15, slot home, of a slot of the lane's own.
pub struct Rest<J, K, L> {
    of: PhantomData<(J, K, L)>,
}

impl<S, J: Placed, K: Named, L: Counting> Play<S, View> for Rest<J, K, L> {
    ghost use Rattle.sv_rule.specs.SlotPlays.{Rested};

    ghost then = { λ st. Rested J.family K.pack L.count };
}

/// Kind 15, slot home, in the middle of a sweep.
pub struct Pass<J> {
    of: PhantomData<J>,
}

impl<S, J: At> Play<S, View> for Pass<J> {
    ghost use Rattle.sv_rule.specs.SweepPlays.{Passed};

    ghost then = { λ st. Passed J.desk J.family J.old J.lane J.taken };
}
