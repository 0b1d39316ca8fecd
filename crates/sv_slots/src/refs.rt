// References to SuperVersions.
ghost use Rattle.std.specs.Prelude.{◌≡◌, ◌<◌, ◌≤◌, IfErr, IfOk, length};
ghost use Rattle.sv_model.specs.Lists.{same, total};
ghost use Rattle.sv_rule.specs.ReferencePlays.{CanAdd, MayDropAt, added};
ghost use Rattle.sv_slots.specs.Known.{CameWith, IsSameSeat, table_of, view_of};
ghost use Rattle.sv_slots.specs.Seats.{bodied};

use crate::table::{Core, LaneSeat, MAX_HAND, word_of};
use std::marker::Brand;
use std::sync::Arc;
use sv_model::{OutOfMemory, Pack, SvRef};
use sv_rule::Parts;

/// The count in a reference word is below this number.
pub(crate) const COUNTS: u64 = 1 << 32;

/// The cleanup of a SuperVersion whose last reference was dropped. It is moved and never copied.
#[derive(Drop)]
pub struct Owed {
    pub(crate) pack: Pack,
}

/// What was left when a reference was dropped.
#[derive(Drop)]
pub enum Sub {
    More,
    Last(Owed),
}

impl Owed {
    pub fn pack(&self) -> Pack
        ensures { result ≡ self.now.pack }
    {
        self.pack
    }
}

impl<P: Parts> Core<P> {
    ghost use Rattle.sv_slots.specs.References.{IsDropped, NotLast};

    /// One more reference of a SuperVersion.
    pub fn add_ref(
        &self,
        seat: &mut LaneSeat<P>,
        of: &SvRef<P::Body>,
    ) -> Result<SvRef<P::Body>, OutOfMemory>
        requires table { CameWith (table_of self.now) seat.old }
        requires held { (256 ≤ of.now.pack) × CanAdd (bodied P.body of.now) (view_of seat.old) }
        requires room { length (view_of seat.old).hand < MAX_HAND }
        ensures same { IsSameSeat seat.old seat.new }
        ensures ok { IfOk result (λ r. (bodied P.body r ≡ bodied P.body of.now) × ((view_of seat.new) ≡ added (bodied P.body of.now) (view_of seat.old))) }
        ensures err { IfErr result (λ _. (view_of seat.new) ≡ (view_of seat.old)) }
    {
        let body = Arc::try_clone(&of.body)?;
        let lane = seat.lane;
        self.add_step::<Brand>(&mut seat.seat, lane, of, word_of(of.pack));
        Ok(SvRef {
            pack: of.pack,
            body,
        })
    }

    /// Drops a reference that is in the lane's hand.
    pub fn drop_ref(&self, seat: &mut LaneSeat<P>, held: SvRef<P::Body>) -> Sub
        requires table { CameWith (table_of self.now) seat.old }
        requires held { (256 ≤ held.pack) × (0 < total (same held.pack) (view_of seat.old).hand) }
        requires may { MayDropAt held.pack (view_of seat.old).seat.lanes (view_of seat.old).hand (view_of seat.old).locks.db }
        ensures same { IsSameSeat seat.old seat.new }
        ensures view { IsDropped held.pack result (view_of seat.old) (view_of seat.new) }
        ensures more { NotLast held.pack result (view_of seat.old) }
    {
        let SvRef { pack, body } = held;
        drop(body);
        let lane = seat.lane;
        let found = self.subtract_step::<Brand>(&mut seat.seat, lane, word_of(pack));
        if found % COUNTS == 1 {
            Sub::Last(Owed { pack })
        } else {
            Sub::More
        }
    }
}
