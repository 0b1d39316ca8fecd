// What lies at the slots of a database's table. Each is small: the state, the directory and the memtables lie in boxes.
ghost use Rattle.std.specs.Prelude.{◌≡◌};
ghost use Rattle.sv_borrows.specs.Parts.{body_of};

use std::marker::{Model, PhantomData};
use sv_dir::Dir;
use sv_memtable::MemCell;
use sv_objects::Body;
use sv_rule::Parts;
use sv_slots::{Core, LaneSeat};
use sv_state::State;

/// The types of a database over a directory.
pub struct Database<D> {
    of: PhantomData<D>,
}

/// The state.
#[derive(Drop)]
pub struct Held {
    pub state: Box<State>,
}

impl Model for Held {
    ghost use Rattle.sv_state.specs.Seen.{StateSeen};

    ghost Value = { StateSeen };

    ghost view = { λ h. h.state.value };
}

/// The directory.
#[derive(Drop)]
pub struct Folder<D> {
    pub dir: Box<D>,
}

/// A cell, vacant or with a memtable.
#[derive(Drop)]
pub struct Slot {
    pub memtable: Option<Box<MemCell>>,
}

impl Model for Slot {
    ghost use Rattle.std.specs.Prelude.{Option, option_map};
    ghost use Rattle.sv_model.specs.Cells.{Cell};

    ghost Value = { Option Cell };

    ghost view = { λ s. option_map (λ b. b.value) s.memtable };
}

impl<D: Dir + Drop> Parts for Database<D> {
    type State = Held;

    type Dir = Folder<D>;

    type Cell = Slot;

    type Body = Body;

    ghost books = { λ h. h.books };

    ghost disk = { λ f. record { files = D.files f.dir.value; faults = D.faults f.dir.value } };

    ghost cell = { λ s. s };

    ghost body = { body_of };
}

/// What a lane of a database steps with.
pub type Seat<D> = LaneSeat<Database<D>>;

/// The table of a database.
pub type Table<D> = Core<Database<D>>;
