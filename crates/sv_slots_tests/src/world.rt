// A database with few books.
ghost use Rattle.sv_slots_tests.specs.Stages.{books_at};
ghost use Rattle.sv_slots_tests.specs.World.{body_of, cell_at, world_disk};

use crate::stages::Stage;
use sv_rule::Parts;

/// So many families there are.
pub const FAMILIES: u8 = 4;

/// The types of the database.
pub struct World;

/// The directory.
#[derive(Drop)]
pub struct Nowhere;

/// The cell of that number.
#[derive(Drop)]
pub struct Place {
    pub number: u8,
}

/// What the references of the SuperVersion of a family share.
#[derive(Drop)]
pub struct Shared {
    pub family: u8,
}

impl Parts for World {
    type State = Stage;

    type Dir = Nowhere;

    type Cell = Place;

    type Body = Shared;

    ghost books = { books_at };

    ghost disk = { λ _. world_disk };

    ghost cell = { λ place. cell_at place.number };

    ghost body = { λ shared. body_of shared.family };
}
