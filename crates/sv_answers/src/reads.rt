// Reads: of what all writes leave, and at a snapshot.
ghost use Rattle.std.specs.Prelude.{◌≡◌, is_some};
ghost use Rattle.sv_script.specs.declared.commands.Command.TheVariants as command;
ghost use Rattle.sv_replies.specs.Makes.{Makes};
ghost use Rattle.sv_replies.specs.ReadReply.{read_reply};
ghost use Rattle.sv_answers.specs.Answered.{CountsReply, IsAnswered, IsHeld};

use std::alloc::Global;
use sv_dir::Dir;
use sv_model::{Key, Name};
use sv_script::Reply;
use sv_store::{Got, Store};

fn reply_to(got: Got) -> Reply
    ensures { result ≡ read_reply got.value got.cut got.sv }
{
    let Got { value, cut, sv } = got;
    match value {
        Some(value) => Reply::Found { value, cut, sv },
        None => Reply::Absent { cut, sv },
    }
}

/// Answers `get`. Refused first for its key.
pub fn get<D: Dir>(alloc: Global, store: &Store, dir: &mut D, name: &Name, key: &[u8]) -> Reply
    ensures answered { IsHeld store.now.books (D.files dir.old) → IsAnswered (is_some (D.files dir.old)) store.now.books store.now.books (command.Get name.now key.now) result }
    ensures makes { Makes store.now.books store.now.books result 0 }
    ensures same { D.files dir.new ≡ D.files dir.old }
    ensures faults { CountsReply result (D.faults dir.old) (D.faults dir.new) }
{
    store.laws();
    match Key::new(alloc, key) {
        Ok(key) => match store.get(dir, name, &key) {
            Ok(got) => reply_to(got),
            Err(refusal) => Reply::Refused(refusal),
        },
        Err(refusal) => Reply::Refused(refusal),
    }
}

/// Answers `gets`. Refused first for its key.
pub fn gets<D: Dir>(
    alloc: Global,
    store: &Store,
    dir: &mut D,
    snapshot: u64,
    name: &Name,
    key: &[u8],
) -> Reply
    ensures answered { IsHeld store.now.books (D.files dir.old) → IsAnswered (is_some (D.files dir.old)) store.now.books store.now.books (command.Gets snapshot name.now key.now) result }
    ensures makes { Makes store.now.books store.now.books result 0 }
    ensures same { D.files dir.new ≡ D.files dir.old }
    ensures faults { CountsReply result (D.faults dir.old) (D.faults dir.new) }
{
    store.laws();
    match Key::new(alloc, key) {
        Ok(key) => match store.gets(dir, snapshot, name, &key) {
            Ok(got) => reply_to(got),
            Err(refusal) => Reply::Refused(refusal),
        },
        Err(refusal) => Reply::Refused(refusal),
    }
}
