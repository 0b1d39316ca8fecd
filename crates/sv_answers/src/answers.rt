// The answer of the one lane to a command.
ghost use Rattle.std.specs.Prelude.{◌≡◌, Bool, is_some};
ghost use Rattle.sv_script.specs.Built.{IsBuilt};
ghost use Rattle.sv_state.specs.Follows.{Follows};
ghost use Rattle.sv_replies.specs.Makes.{Makes, draws_by};
ghost use Rattle.sv_answers.specs.Answered.{CountsReply, IsAnswered, IsHeld, KeepsHeld, KeepsOthers, LeavesOthers, TellsNoFault};
ghost use Rattle.sv_answers.specs.Run.{AsksNone};
ghost use Rattle.sv_answers.specs.Steps.{Steps, StepsAlone};

use crate::compactions::compact;
use crate::families::{create, drop_family, open, release};
use crate::flushes::flush;
use crate::holds::{hold, unhold};
use crate::listings::live;
use crate::options::set;
use crate::purges::purge;
use crate::reads::{get, gets};
use crate::scans::scan;
use crate::snapshots::{snap, unsnap};
use crate::writes::{delete, put};
use std::alloc::Global;
use sv_dir::Dir;
use sv_script::{Command, Reply};
use sv_store::Store;

// Answers a command that asks nothing of the directory.
fn answer_in_memory(alloc: Global, store: &mut Store, command: &Command) -> Reply
    requires { AsksNone command.now }
    ensures answered { (told : Bool) → IsAnswered told store.old.books store.new.books command.now result }
    ensures step { StepsAlone store.old store.new command.now result }
    ensures makes { Makes store.old.books store.new.books result 0 }
    ensures quiet { TellsNoFault result }
    ensures held { KeepsHeld store.old.books store.new.books }
    ensures others { KeepsOthers store.old.books store.new.books }
    ensures follows { Follows store.old.books store.new.books }
{
    store.laws();
    match command {
        Command::Put { family, key, value } => {
            put(alloc, store, family, key.as_slice(), value.as_slice())
        }
        Command::Delete { family, key } => delete(alloc, store, family, key.as_slice()),
        Command::Create(family) => create(store, family),
        Command::Open(family) => open(store, family),
        Command::Release(family) => release(store, family),
        Command::Drop(family) => drop_family(store, family),
        Command::Set {
            family,
            option,
            value,
        } => set(store, family, *option, *value),
        Command::Hold => hold(store),
        Command::Unhold => unhold(store),
        Command::Live => live(store),
        Command::Snap => snap(store),
        Command::Unsnap(snapshot) => unsnap(store, *snapshot),
        _ => unreachable!(),
    }
}

/// The reply to a command, by the rules of replies: any but those of pins and rests.
pub fn answer<D: Dir>(alloc: Global, store: &mut Store, dir: &mut D, command: &Command) -> Reply
    requires built { IsBuilt command.now }
    ensures answered { IsHeld store.old.books (D.files dir.old) → IsAnswered (is_some (D.files dir.old)) store.old.books store.new.books command.now result }
    ensures step { Steps store.old store.new (record { files = D.files dir.old; later = D.files dir.new; before = D.faults dir.old; now = D.faults dir.new }) command.now result }
    ensures makes { Makes store.old.books store.new.books result (draws_by command.now result) }
    ensures faults { CountsReply result (D.faults dir.old) (D.faults dir.new) }
    ensures held { IsHeld store.old.books (D.files dir.old) → IsHeld store.new.books (D.files dir.new) }
    ensures told { is_some (D.files dir.new) ≡ is_some (D.files dir.old) }
    ensures others { LeavesOthers store.old.books store.new.books (D.files dir.old) (D.files dir.new) }
    ensures follows { Follows store.old.books store.new.books }
{
    store.laws();
    match command {
        Command::Get { family, key } => get(alloc, store, dir, family, key.as_slice()),
        Command::Gets {
            snapshot,
            family,
            key,
        } => gets(alloc, store, dir, *snapshot, family, key.as_slice()),
        Command::Flush(family) => flush(store, dir, family),
        Command::Compact(family) => compact(store, dir, family),
        Command::Purge => purge(store, dir),
        Command::Scan => scan(store, dir),
        _ => answer_in_memory(alloc, store, command),
    }
}
