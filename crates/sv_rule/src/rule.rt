// The rule of the table.
use crate::StoredOf;
use crate::parts::Parts;
use crate::view::View;
use atomic_table::TableRule;
use std::marker::PhantomData;
use std::snapshot::Snapshot;

/// What the table is told when it is made.
#[derive(Drop)]
pub struct Opening<S, D> {
    pub lanes: u8,
    pub state: Snapshot<S>,
    pub dir: Snapshot<D>,
}

/// The rule of the table. No value of it is made.
pub struct Rule<P> {
    parts: PhantomData<P>,
}

impl<P: Parts> TableRule<StoredOf<P>, View, Opening<P::State, P::Dir>> for Rule<P> {
    ghost use Rattle.sv_rule.specs.Rule.{Kept};
    ghost use Rattle.sv_rule.specs.Blanks.{first_view};

    ghost holds = { λ _. Kept P.books P.disk P.cell P.body };

    ghost first = { λ key. first_view key.lanes (P.books key.state.value) (P.disk key.dir.value) };
}
