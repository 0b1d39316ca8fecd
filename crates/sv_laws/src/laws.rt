// Laws of the books, for all books.
ghost use Rattle.std.specs.Prelude.{◌≤◌, ℕ};
ghost use Rattle.sv_model.specs.Books.{Books};
ghost use Rattle.sv_model.specs.Steady.{Sound};
ghost use Rattle.sv_model.specs.Openings.{IsOpening, opening_books};
ghost use Rattle.sv_model.specs.After.{After};
ghost use Rattle.sv_laws.specs.Changes.{Changes};

/// Each change keeps the books sound, and leads to books that come after.
pub fn books_that_change()
    ensures { (a b : Books) → Sound a → Changes a b → Sound b × After a b }
{}

/// The books of an opening are sound, and so are the first ones, of an empty folder.
pub fn books_that_open()
    ensures opening { (b : Books) → IsOpening b → Sound b }
    ensures first { (next : ℕ) → 1 ≤ next → next ≤ 18446744073709551615 → Sound (opening_books next) }
{}
