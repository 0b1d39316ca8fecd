// The lines of the one lane, each answered once and in order.
ghost use Rattle.std.specs.Prelude.{◌≡◌, ◌≤◌, [], All, is_some, length, vec_capacity};
ghost use Rattle.sv_script.specs.Built.{IsBuilt};
ghost use Rattle.sv_replies.specs.Told.{AloneTold};
ghost use Rattle.sv_answers.specs.Answered.{IsHeld, alone};
ghost use Rattle.sv_lane.specs.Played.{Played};

use std::alloc::Global;
use sv_answers::answer;
use sv_dir::Dir;
use sv_model::Items;
use sv_script::{Line, Reply};
use sv_store::Store;

/// Answers the lines of the one lane, which was told nothing yet; no write is of another. There is room for the replies.
pub fn play<D: Dir>(
    alloc: Global,
    store: &mut Store,
    dir: &mut D,
    lines: &[Line],
    mut replies: Vec<(u64, Reply)>,
) -> Items<(u64, Reply)>
    requires built { All (λ line. IsBuilt line.command) lines.now }
    requires told { AloneTold (alone (is_some (D.files dir.old))) store.old.books [] }
    requires held { IsHeld store.old.books (D.files dir.old) }
    requires no_replies { replies.items ≡ [] }
    requires room { length lines.now ≤ vec_capacity replies }
    ensures { Played (record { books = store.old.books; files = D.files dir.old; faults = D.faults dir.old }) (record { books = store.new.books; files = D.files dir.new; faults = D.faults dir.new }) lines.now result }
{
    store.laws();
    for line in lines {
        let reply = answer(alloc, store, dir, &line.command);
        replies.push_reserved((line.line, reply));
    }
    Items::from_vec(replies)
}
