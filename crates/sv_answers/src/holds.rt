// Holds.
ghost use Rattle.std.specs.Prelude.{Bool};
ghost use Rattle.sv_script.specs.declared.commands.Command.TheVariants as command;
ghost use Rattle.sv_state.specs.Follows.{Follows};
ghost use Rattle.sv_replies.specs.Makes.{Makes};
ghost use Rattle.sv_answers.specs.Answered.{IsAnswered, KeepsHeld, KeepsOthers, TellsNoFault};
ghost use Rattle.sv_answers.specs.Steps.{StepsAlone};

use sv_script::Reply;
use sv_store::Store;

/// Answers `hold`.
pub fn hold(store: &mut Store) -> Reply
    ensures answered { (told : Bool) → IsAnswered told store.old.books store.new.books command.Hold result }
    ensures step { StepsAlone store.old store.new command.Hold result }
    ensures makes { Makes store.old.books store.new.books result 0 }
    ensures quiet { TellsNoFault result }
    ensures held { KeepsHeld store.old.books store.new.books }
    ensures others { KeepsOthers store.old.books store.new.books }
    ensures follows { Follows store.old.books store.new.books }
{
    store.laws();
    match store.hold() {
        Ok(count) => Reply::Hold(count),
        Err(refusal) => Reply::Refused(refusal),
    }
}

/// Answers `unhold`.
pub fn unhold(store: &mut Store) -> Reply
    ensures answered { (told : Bool) → IsAnswered told store.old.books store.new.books command.Unhold result }
    ensures step { StepsAlone store.old store.new command.Unhold result }
    ensures makes { Makes store.old.books store.new.books result 0 }
    ensures quiet { TellsNoFault result }
    ensures held { KeepsHeld store.old.books store.new.books }
    ensures others { KeepsOthers store.old.books store.new.books }
    ensures follows { Follows store.old.books store.new.books }
{
    store.laws();
    match store.unhold() {
        Ok(count) => Reply::Unhold(count),
        Err(refusal) => Reply::Refused(refusal),
    }
}
