// Laws of replies, for all books.
ghost use Rattle.std.specs.Prelude.{◌≡◌, ◌<◌, ◌≤◌, ◌∷◌, ◌++◌, [], Bool, ℕ, List};
ghost use Rattle.sv_model.specs.After.{After, Continues};
ghost use Rattle.sv_model.specs.Books.{Books};
ghost use Rattle.sv_model.specs.Lawful.{Lawful};
ghost use Rattle.sv_model.specs.Openings.{IsOpening, opening_books};
ghost use Rattle.sv_model.specs.Steady.{Sound};
ghost use Rattle.sv_laws.specs.Changes.{Changes};
ghost use Rattle.sv_script.specs.Answered.{Answered};
ghost use Rattle.sv_script.specs.declared.commands.Command.{Command};
ghost use Rattle.sv_script.specs.declared.replies.Reply.{Reply};
ghost use Rattle.sv_replies.specs.Answers.{Answers};
ghost use Rattle.sv_replies.specs.FrozenActives.{ActivesAreFrozen};
ghost use Rattle.sv_replies.specs.Known.{Known, known_after, learn};
ghost use Rattle.sv_replies.specs.Knows.{Knows};
ghost use Rattle.sv_replies.specs.LanesFit.{LanesFit};
ghost use Rattle.sv_replies.specs.Makes.{Makes, MakesAll, draws_by};
ghost use Rattle.sv_replies.specs.ReplyFits.{ReplyFits};
ghost use Rattle.sv_replies.specs.Settings.{Setting};
ghost use Rattle.sv_replies.specs.Told.{AloneTold, LaneTold, Told};

/// A lane that was told nothing yet knows no more than the books of an opening have.
pub fn replies_that_begin()
    ensures told { (s : Setting) (b : Books) → IsOpening b → Told s b [] }
    ensures lane { (s : Setting) (next : ℕ) → s.lane < 32 → 1 ≤ next → next ≤ 18446744073709551615 → LaneTold s (opening_books next) [] }
    ensures alone { (s : Setting) (next : ℕ) → s.lane < 32 → 1 ≤ next → next ≤ 18446744073709551615 → AloneTold s (opening_books next) [] }
{}

/// A reply that fits lawful books, in which all is that the lane was told, fits all lawful books that come after.
pub fn replies_that_last()
    ensures { (s : Setting) (a b : Books) (k : Known) → Knows a k → Lawful a → Lawful b → After a b
        → (command : Command) (reply : Reply) → ReplyFits s a k command reply → ReplyFits s b k command reply }
{}

/// What a lane was told stays so in all lawful books that come after, and goes on by a reply that fits them.
pub fn replies_that_go_on()
    ensures later { (s : Setting) (a b : Books) (all : List Answered) → Lawful a → Lawful b → After a b → Told s a all → Told s b all }
    ensures push { (s : Setting) (a b : Books) (all : List Answered) (x : Answered) → Lawful a → Lawful b → After a b → Told s a all
        → ReplyFits s b (known_after all) x.command x.reply → Knows b (learn (known_after all) x.command x.reply)
        → Told s b (all ++ x ∷ []) }
    ensures lane { (s : Setting) (a b : Books) (all : List Answered) (x : Answered) → Lawful a → Lawful b → After a b → LaneTold s a all
        → Answers s a b (known_after all) x.command x.reply → LaneTold s b (all ++ x ∷ []) }
    ensures alone { (s : Setting) (a b : Books) (all : List Answered) (x : Answered) → s.lanes ≡ 1 → Lawful a → Lawful b → After a b
        → AloneTold s a all → Answers s a b (known_after all) x.command x.reply → AloneTold s b (all ++ x ∷ []) }
{}

/// What was made adds up, reply by reply.
pub fn replies_that_make()
    ensures none { (a : Books) → MakesAll a a [] }
    ensures push { (a m b : Books) (all : List Answered) (x : Answered) → Continues m.metas b.metas → MakesAll a m all
        → Makes m b x.reply (draws_by x.command x.reply) → MakesAll a b (all ++ x ∷ []) }
{}

/// Where one lane is, its replies fit as those of all lanes.
pub fn replies_of_one_lane()
    ensures { (told : Bool) (b : Books) (all : List Answered) → AloneTold (record { lane = 0; lanes = 1; told = told }) b all
        → LanesFit told b (all ∷ []) }
{}

/// Each SuperVersion's active memtable is that of its family's current or a member of a list: at first, and after each
/// change.
pub fn actives_that_freeze()
    ensures first { (next : ℕ) → ActivesAreFrozen (opening_books next) }
    ensures kept { (a b : Books) → Sound a → ActivesAreFrozen a → Changes a b → ActivesAreFrozen b }
{}
