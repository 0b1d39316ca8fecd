// Options.
ghost use Rattle.std.specs.Prelude.{Bool};
ghost use Rattle.sv_script.specs.declared.commands.Command.TheVariants as command;
ghost use Rattle.sv_state.specs.Follows.{Follows};
ghost use Rattle.sv_replies.specs.Makes.{Makes};
ghost use Rattle.sv_answers.specs.Answered.{IsAnswered, KeepsHeld, KeepsOthers, TellsNoFault};
ghost use Rattle.sv_answers.specs.Steps.{StepsAlone};

use sv_model::{Name, OptionName};
use sv_script::Reply;
use sv_store::Store;

/// Answers `set`.
pub fn set(store: &mut Store, name: &Name, option: OptionName, value: u64) -> Reply
    ensures answered { (told : Bool) → IsAnswered told store.old.books store.new.books (command.Set name.now option value) result }
    ensures step { StepsAlone store.old store.new (command.Set name.now option value) result }
    ensures makes { Makes store.old.books store.new.books result 0 }
    ensures quiet { TellsNoFault result }
    ensures held { KeepsHeld store.old.books store.new.books }
    ensures others { KeepsOthers store.old.books store.new.books }
    ensures follows { Follows store.old.books store.new.books }
{
    store.laws();
    match store.set(name, option, value) {
        Ok(serial) => Reply::Set(serial),
        Err(refusal) => Reply::Refused(refusal),
    }
}
