// Compactions.
ghost use Rattle.std.specs.Prelude.{◌≡◌, is_some};
ghost use Rattle.sv_script.specs.declared.commands.Command.TheVariants as command;
ghost use Rattle.sv_state.specs.Follows.{Follows};
ghost use Rattle.sv_replies.specs.Makes.{Makes, begins_by};
ghost use Rattle.sv_answers.specs.Answered.{CountsReply, IsAnswered, IsHeld, LeavesOthers};
ghost use Rattle.sv_answers.specs.Steps.{TellsCompact};

use sv_dir::Dir;
use sv_model::Name;
use sv_script::Reply;
use sv_store::Store;

/// Answers `compact`.
pub fn compact<D: Dir>(store: &mut Store, dir: &mut D, name: &Name) -> Reply
    ensures answered { IsHeld store.old.books (D.files dir.old) → IsAnswered (is_some (D.files dir.old)) store.old.books store.new.books (command.Compact name.now) result }
    ensures compacted { TellsCompact store.old store.new (D.files dir.old) (D.files dir.new) name.now result }
    ensures makes { Makes store.old.books store.new.books result (begins_by result) }
    ensures faults { CountsReply result (D.faults dir.old) (D.faults dir.new) }
    ensures held { IsHeld store.old.books (D.files dir.old) → IsHeld store.new.books (D.files dir.new) }
    ensures told { is_some (D.files dir.new) ≡ is_some (D.files dir.old) }
    ensures others { LeavesOthers store.old.books store.new.books (D.files dir.old) (D.files dir.new) }
    ensures follows { Follows store.old.books store.new.books }
{
    store.laws();
    match store.compact(dir, name) {
        Ok(file) => Reply::Compact {
            number: file.number,
            from: file.from,
            to: file.to,
        },
        Err(refusal) => Reply::Refused(refusal),
    }
}
