// The files that may be copied while there is a hold.
ghost use Rattle.std.specs.Prelude.{◌≡◌, Bool};
ghost use Rattle.sv_script.specs.declared.commands.Command.TheVariants as command;
ghost use Rattle.sv_replies.specs.Makes.{Makes};
ghost use Rattle.sv_answers.specs.Answered.{IsAnswered, TellsNoFault};

use sv_model::Items;
use sv_script::Reply;
use sv_store::Store;

/// Answers `live`.
pub fn live(store: &mut Store) -> Reply
    ensures answered { (told : Bool) → IsAnswered told store.old.books store.new.books command.Live result }
    ensures makes { Makes store.old.books store.new.books result 0 }
    ensures quiet { TellsNoFault result }
    ensures kept { store.new ≡ store.old }
{
    store.laws();
    match store.live() {
        Ok(files) => Reply::Live(Items::from_vec(files)),
        Err(refusal) => Reply::Refused(refusal),
    }
}
