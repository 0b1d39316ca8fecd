// The close: holds, snapshots and currents end, and each file that nothing needs is removed.
ghost use Rattle.std.specs.Prelude.{◌≡◌, ◌≤◌, Some, is_some};
ghost use Rattle.sv_model.specs.declared.sv_refs.SvRef.{SvRef};
ghost use Rattle.sv_journal.specs.Calls.{AreEnded};
ghost use Rattle.sv_laws.specs.Cleaning.{IsCleaned};
ghost use Rattle.sv_model.specs.Summaries.{obsolete_of};
ghost use Rattle.sv_objects.specs.declared.bodies.Body.{Body};
ghost use Rattle.sv_state.specs.Currents.{HasCurrentAt};
ghost use Rattle.sv_state.specs.Follows.{Follows, OnlyFiles};
ghost use Rattle.sv_state.specs.Gone.{IsFree, TellsEnd};
ghost use Rattle.sv_store.specs.Closing.{Closes, ClosesFiles, EndsAs, IsClosed};
ghost use Rattle.sv_store.specs.Ending.{CanClose, CanEndCurrent, CanRemove, EndsCurrent, EndsCurrents, EndsSnapshots, LetsFamilyGo, LosesCurrent, MayReclaim, RemovesObsolete, end_after};
ghost use Rattle.sv_store.specs.HeldFiles.{IsHeld, LeavesOthers};
ghost use Rattle.sv_store.specs.Standing.{IsAlone};

use crate::purges::remove_each;
use crate::store::Store;
use sv_dir::Dir;
use sv_model::{End, FamilyId, Refusal, SvRef};
use sv_state::{Body, Install, State};

/// What stands after a close, and how it ended.
#[derive(Drop)]
pub struct Closed {
    pub books: State,
    pub end: End,
}

// Ends the snapshots that are Live.
fn end_snapshots(state: &mut State)
    ensures none { AreEnded state.new.books.snapshots }
    ensures ended { EndsSnapshots state.old.books state.new.books }
    ensures follows { Follows state.old.books state.new.books }
{
    state.laws();
    while let Some(snapshot) = state.live_snapshot() {
        let _ = state.unsnap(snapshot);
    }
}

// The family has no current any more, and a dropped one is retired.
fn lose_current(state: &mut State, family: FamilyId) -> Install
    requires { HasCurrentAt state.old.books family }
    ensures loses { LosesCurrent state.old.books state.new.books family }
    ensures lets_go { LetsFamilyGo state.old.books state.new.books family }
    ensures family { result.family ≡ family }
    ensures tells { TellsEnd state.old.books result }
    ensures follows { Follows state.old.books state.new.books }
{
    state.laws();
    if state.kept(family).is_some() {
        return state.end_current(family);
    }
    state.retire(family)
}

// The SuperVersion that waits goes.
fn reclaim(state: &mut State, old: Option<SvRef<Body>>)
    requires { MayReclaim state.old.books old }
    ensures goes { (r : SvRef Body) → old ≡ Some r → (free : IsFree state.old.books r.pack) → IsCleaned state.old.books state.new.books free.serial free.it }
    ensures follows { Follows state.old.books state.new.books }
{
    let Some(old) = old else {
        unreachable!();
    };
    state.cleanup(old.pack);
}

// The family loses its current, which goes.
fn end_current(state: &mut State, family: FamilyId)
    requires { CanEndCurrent state.old.books family }
    ensures alone { IsAlone state.new.books }
    ensures ends { EndsCurrent state.old.books state.new.books family }
    ensures follows { Follows state.old.books state.new.books }
{
    state.laws();
    let install = lose_current(state, family);
    reclaim(state, install.old);
}

// No family has a current any more, and each dropped one is retired.
fn end_currents(state: &mut State)
    requires { CanClose state.old.books }
    ensures alone { IsAlone state.new.books }
    ensures ends { EndsCurrents state.old.books state.new.books 16 }
    ensures follows { Follows state.old.books state.new.books }
{
    state.laws();
    for index in 0..16 {
        let family = FamilyId(index);
        if state.has_current(family) {
            end_current(state, family);
        }
    }
}

fn end_after(refused: Option<Refusal>) -> End
    ensures { result ≡ end_after refused }
{
    match refused {
        None => End::Clean,
        Some(Refusal::OutOfMemory) => End::OutOfMemory,
        Some(_) => End::DirFault,
    }
}

// Each file that nothing needs is removed. Each is tried once, in the order of their numbers.
fn remove_obsolete<D: Dir>(state: &mut State, dir: &mut D) -> End
    requires { CanRemove state.old.books.files }
    ensures removes { RemovesObsolete state.old.books.files state.new.books.files (record { files = D.files dir.old; later = D.files dir.new; before = D.faults dir.old; now = D.faults dir.new }) }
    ensures end { EndsAs result (obsolete_of state.new.books.files.numbers) (D.faults dir.old) (D.faults dir.new) }
    ensures rest { OnlyFiles state.old state.new }
    ensures follows { Follows state.old.books state.new.books }
{
    state.laws();
    let ready = match state.ready() {
        Ok(ready) => ready,
        Err(_) => return End::OutOfMemory,
    };
    let refused = remove_each(state, dir, ready.as_slice());
    end_after(refused)
}

impl Store {
    /// Ends all holds and snapshots, takes the handles of dropped families back, drops each family's current with all
    /// that nothing else names, and removes each Obsolete file, each tried once, in ascending order. It does not flush:
    /// rows that stand in memtables alone go with them. The registers stay, as long as they were, for a report.
    ///
    /// The end is clean where no number is left. Else it tells why one is: for want of memory, or since the directory
    /// failed at each. Takes memory for the list of the numbers that are to go, where there are some; a removal may too.
    pub fn close<D: Dir>(self, dir: &mut D) -> Closed
        ensures closed { IsClosed result.books.books }
        ensures closes { Closes self.books result.books.books }
        ensures files { ClosesFiles self.books.files result.books.books.files (record { files = D.files dir.old; later = D.files dir.new; before = D.faults dir.old; now = D.faults dir.new }) }
        ensures end { EndsAs result.end (obsolete_of result.books.books.files.numbers) (D.faults dir.old) (D.faults dir.new) }
        ensures held { IsHeld self.books (D.files dir.old) → IsHeld result.books.books (D.files dir.new) }
        ensures others { LeavesOthers self.books result.books.books (D.files dir.old) (D.files dir.new) }
        ensures told { is_some (D.files dir.new) ≡ is_some (D.files dir.old) }
        ensures later { D.faults dir.old ≤ D.faults dir.new }
        ensures follows { Follows self.books result.books.books }
    {
        let mut books = self.state;
        books.end_holds();
        end_snapshots(&mut books);
        end_currents(&mut books);
        let end = remove_obsolete(&mut books, dir);
        Closed { books, end }
    }
}
