// Puts and deletes.
ghost use Rattle.std.specs.Prelude.{◌≡◌, ◌∷◌, [], Bool, IfOk, length};
ghost use Rattle.sv_model.specs.Refusals.{Refuses, first_due, key_refusal, value_refusal};
ghost use Rattle.sv_script.specs.declared.commands.Command.TheVariants as command;
ghost use Rattle.sv_state.specs.Follows.{Follows};
ghost use Rattle.sv_replies.specs.Makes.{Makes};
ghost use Rattle.sv_answers.specs.Answered.{IsAnswered, KeepsHeld, KeepsOthers, TellsNoFault};
ghost use Rattle.sv_answers.specs.Steps.{StepsAlone};

use std::alloc::Global;
use sv_model::{Key, Name, Refusal, Value};
use sv_script::Reply;
use sv_store::Store;

// The key and the value, where both are some.
fn row_of(alloc: Global, key: &[u8], value: &[u8]) -> Result<(Key, Value), Refusal>
    ensures refused { Refuses (first_due (key_refusal (length key.now) ∷ value_refusal (length value.now) ∷ [])) result }
    ensures row { IfOk result (λ row. (row.0 ≡ key.now) × (row.1 ≡ value.now)) }
{
    let key = Key::new(alloc, key)?;
    let value = Value::new(alloc, value)?;
    Ok((key, value))
}

/// Answers `put`. Refused first for its key and its value.
pub fn put(alloc: Global, store: &mut Store, name: &Name, key: &[u8], value: &[u8]) -> Reply
    ensures answered { (told : Bool) → IsAnswered told store.old.books store.new.books (command.Put name.now key.now value.now) result }
    ensures step { StepsAlone store.old store.new (command.Put name.now key.now value.now) result }
    ensures makes { Makes store.old.books store.new.books result 0 }
    ensures quiet { TellsNoFault result }
    ensures held { KeepsHeld store.old.books store.new.books }
    ensures others { KeepsOthers store.old.books store.new.books }
    ensures follows { Follows store.old.books store.new.books }
{
    store.laws();
    match row_of(alloc, key, value) {
        Ok((key, value)) => match store.put(name, key, value) {
            Ok(number) => Reply::Put(number),
            Err(refusal) => Reply::Refused(refusal),
        },
        Err(refusal) => Reply::Refused(refusal),
    }
}

/// Answers `delete`. Refused first for its key.
pub fn delete(alloc: Global, store: &mut Store, name: &Name, key: &[u8]) -> Reply
    ensures answered { (told : Bool) → IsAnswered told store.old.books store.new.books (command.Delete name.now key.now) result }
    ensures step { StepsAlone store.old store.new (command.Delete name.now key.now) result }
    ensures makes { Makes store.old.books store.new.books result 0 }
    ensures quiet { TellsNoFault result }
    ensures held { KeepsHeld store.old.books store.new.books }
    ensures others { KeepsOthers store.old.books store.new.books }
    ensures follows { Follows store.old.books store.new.books }
{
    store.laws();
    match Key::new(alloc, key) {
        Ok(key) => match store.delete(name, key) {
            Ok(number) => Reply::Delete(number),
            Err(refusal) => Reply::Refused(refusal),
        },
        Err(refusal) => Reply::Refused(refusal),
    }
}
