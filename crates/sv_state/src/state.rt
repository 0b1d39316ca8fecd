// The state, which contracts see as its books.
use std::alloc::Global;
use std::marker::Model;
use sv_family::Families;
use sv_journal::Journal;
use sv_model::{FileMeta, SvRef, Top};
use sv_objects::{Body, Objects};

/// The registers of a store. Contracts see them as books, and beside them for how many more writes there is room.
#[derive(Drop)]
pub struct State {
    pub(crate) alloc: Global,
    pub(crate) journal: Journal,
    pub(crate) objects: Objects,
    /// What each captured number covers.
    pub(crate) metas: Vec<FileMeta>,
    pub(crate) families: Families,
    /// By family, what it has on top, and a reference of its current SuperVersion.
    pub(crate) tops: Vec<Top>,
    pub(crate) held: Vec<Option<SvRef<Body>>>,
}

impl Model for State {
    ghost use Rattle.sv_state.specs.Seen.{StateSeen};

    ghost Value = { StateSeen };

    ghost use Rattle.sv_state.specs.Views.{books_of, Keeps};

    ghost view = { λ s. record { books = books_of s; spare = s.journal.spare } };

    ghost invariant = { Keeps };
}
