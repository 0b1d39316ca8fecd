// Families that are made, opened, released and dropped.
ghost use Rattle.std.specs.Prelude.{Bool};
ghost use Rattle.sv_script.specs.declared.commands.Command.TheVariants as command;
ghost use Rattle.sv_state.specs.Follows.{Follows};
ghost use Rattle.sv_replies.specs.Makes.{Makes};
ghost use Rattle.sv_answers.specs.Answered.{IsAnswered, KeepsHeld, KeepsOthers, TellsNoFault};
ghost use Rattle.sv_answers.specs.Steps.{StepsAlone};

use sv_model::Name;
use sv_script::Reply;
use sv_store::Store;

/// Answers `create`.
pub fn create(store: &mut Store, name: &Name) -> Reply
    ensures answered { (told : Bool) → IsAnswered told store.old.books store.new.books (command.Create name.now) result }
    ensures step { StepsAlone store.old store.new (command.Create name.now) result }
    ensures makes { Makes store.old.books store.new.books result 0 }
    ensures quiet { TellsNoFault result }
    ensures held { KeepsHeld store.old.books store.new.books }
    ensures others { KeepsOthers store.old.books store.new.books }
    ensures follows { Follows store.old.books store.new.books }
{
    store.laws();
    match store.create(name) {
        Ok(id) => Reply::Create(id),
        Err(refusal) => Reply::Refused(refusal),
    }
}

/// Answers `open`.
pub fn open(store: &mut Store, name: &Name) -> Reply
    ensures answered { (told : Bool) → IsAnswered told store.old.books store.new.books (command.Open name.now) result }
    ensures step { StepsAlone store.old store.new (command.Open name.now) result }
    ensures makes { Makes store.old.books store.new.books result 0 }
    ensures quiet { TellsNoFault result }
    ensures held { KeepsHeld store.old.books store.new.books }
    ensures others { KeepsOthers store.old.books store.new.books }
    ensures follows { Follows store.old.books store.new.books }
{
    store.laws();
    match store.open_family(name) {
        Ok(id) => Reply::Open(id),
        Err(refusal) => Reply::Refused(refusal),
    }
}

/// Answers `release`.
pub fn release(store: &mut Store, name: &Name) -> Reply
    ensures answered { (told : Bool) → IsAnswered told store.old.books store.new.books (command.Release name.now) result }
    ensures step { StepsAlone store.old store.new (command.Release name.now) result }
    ensures makes { Makes store.old.books store.new.books result 0 }
    ensures quiet { TellsNoFault result }
    ensures held { KeepsHeld store.old.books store.new.books }
    ensures others { KeepsOthers store.old.books store.new.books }
    ensures follows { Follows store.old.books store.new.books }
{
    store.laws();
    match store.release(name) {
        Ok(()) => Reply::Release,
        Err(refusal) => Reply::Refused(refusal),
    }
}

/// Answers `drop`.
pub fn drop_family(store: &mut Store, name: &Name) -> Reply
    ensures answered { (told : Bool) → IsAnswered told store.old.books store.new.books (command.Drop name.now) result }
    ensures step { StepsAlone store.old store.new (command.Drop name.now) result }
    ensures makes { Makes store.old.books store.new.books result 0 }
    ensures quiet { TellsNoFault result }
    ensures held { KeepsHeld store.old.books store.new.books }
    ensures others { KeepsOthers store.old.books store.new.books }
    ensures follows { Follows store.old.books store.new.books }
{
    store.laws();
    match store.drop_family(name) {
        Ok(id) => Reply::Drop,
        Err(refusal) => Reply::Refused(refusal),
    }
}
