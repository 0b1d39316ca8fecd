// Snapshots.
ghost use Rattle.std.specs.Prelude.{Bool};
ghost use Rattle.sv_script.specs.declared.commands.Command.TheVariants as command;
ghost use Rattle.sv_state.specs.Follows.{Follows};
ghost use Rattle.sv_replies.specs.Makes.{Makes};
ghost use Rattle.sv_answers.specs.Answered.{IsAnswered, KeepsHeld, KeepsOthers, TellsNoFault};
ghost use Rattle.sv_answers.specs.Steps.{StepsAlone};

use sv_script::Reply;
use sv_store::Store;

/// Answers `snap`.
pub fn snap(store: &mut Store) -> Reply
    ensures answered { (told : Bool) → IsAnswered told store.old.books store.new.books command.Snap result }
    ensures step { StepsAlone store.old store.new command.Snap result }
    ensures makes { Makes store.old.books store.new.books result 0 }
    ensures quiet { TellsNoFault result }
    ensures held { KeepsHeld store.old.books store.new.books }
    ensures others { KeepsOthers store.old.books store.new.books }
    ensures follows { Follows store.old.books store.new.books }
{
    store.laws();
    match store.snap() {
        Ok((snapshot, at)) => Reply::Snap { snapshot, at },
        Err(refusal) => Reply::Refused(refusal),
    }
}

/// Answers `unsnap`.
pub fn unsnap(store: &mut Store, snapshot: u64) -> Reply
    ensures answered { (told : Bool) → IsAnswered told store.old.books store.new.books (command.Unsnap snapshot) result }
    ensures step { StepsAlone store.old store.new (command.Unsnap snapshot) result }
    ensures makes { Makes store.old.books store.new.books result 0 }
    ensures quiet { TellsNoFault result }
    ensures held { KeepsHeld store.old.books store.new.books }
    ensures others { KeepsOthers store.old.books store.new.books }
    ensures follows { Follows store.old.books store.new.books }
{
    store.laws();
    match store.unsnap(snapshot) {
        Ok(()) => Reply::Unsnap,
        Err(refusal) => Reply::Refused(refusal),
    }
}
