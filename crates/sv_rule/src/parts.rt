// What lies at the slots of the table, and what contracts see of it.
ghost use Rattle.std.specs.Prelude.{Option};
ghost use Rattle.sv_model.specs.Books.{Books};
ghost use Rattle.sv_model.specs.Cells.{Cell};
ghost use Rattle.sv_rule.specs.Views.{Body, Disk};

use sv_model::SvRef;

/// The types of a database, and what contracts see of them.
pub trait Parts {
    /// The state: the books, and what is to be done with them.
    type State: Drop;

    /// The directory of table files.
    type Dir: Drop;

    /// The cell of a memtable.
    type Cell: Drop;

    /// What the references of a SuperVersion share.
    type Body: Drop;

    ghost books: { Self.State → Books };

    ghost disk: { Self.Dir → Disk };

    ghost cell: { Self.Cell → Option Cell };

    ghost body: { Self.Body → Body };
}

/// What lies at a slot of the table.
#[derive(Drop)]
pub enum Stored<S, D, C, B> {
    Nothing,
    State(S),
    Dir(D),
    Cell(C),
    Cached(SvRef<B>),
}
