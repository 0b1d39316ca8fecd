// Scans.
ghost use Rattle.std.specs.Prelude.{◌≡◌, Bool, is_some};
ghost use Rattle.sv_script.specs.declared.commands.Command.TheVariants as command;
ghost use Rattle.sv_state.specs.Follows.{Follows};
ghost use Rattle.sv_replies.specs.Makes.{Makes};
ghost use Rattle.sv_answers.specs.Answered.{CountsReply, IsAnswered, IsHeld, LeavesOthers, TellsScan};
ghost use Rattle.sv_answers.specs.Steps.{KeepsRest};

use sv_dir::Dir;
use sv_model::Items;
use sv_script::Reply;
use sv_store::Store;

/// Answers `scan`. The numbers of the reply are just those that were Obsolete and below the bound, and the strays of the
/// listing.
pub fn scan<D: Dir>(store: &mut Store, dir: &mut D) -> Reply
    ensures answered { (told : Bool) → IsAnswered told store.old.books store.new.books command.Scan result }
    ensures rest { KeepsRest store.old store.new }
    ensures makes { Makes store.old.books store.new.books result 0 }
    ensures scanned { TellsScan store.old.books.files store.new.books.files (record { files = D.files dir.old; later = D.files dir.new; before = D.faults dir.old; now = D.faults dir.new }) result }
    ensures faults { CountsReply result (D.faults dir.old) (D.faults dir.new) }
    ensures held { IsHeld store.old.books (D.files dir.old) → IsHeld store.new.books (D.files dir.new) }
    ensures told { is_some (D.files dir.new) ≡ is_some (D.files dir.old) }
    ensures others { LeavesOthers store.old.books store.new.books (D.files dir.old) (D.files dir.new) }
    ensures follows { Follows store.old.books store.new.books }
{
    store.laws();
    match store.scan(dir) {
        Ok(numbers) => Reply::Scan(Items::from_vec(numbers)),
        Err(refusal) => Reply::Refused(refusal),
    }
}
