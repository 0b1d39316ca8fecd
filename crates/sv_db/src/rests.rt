// A lane's rest.
ghost use Rattle.std.specs.Prelude.{◌≡◌};
ghost use Rattle.sv_db.specs.Locals.{IsLocal};
ghost use Rattle.sv_rests.specs.Resting.{Rests};
ghost use Rattle.sv_slots.specs.Known.{table_of, view_of};

use crate::locals::{Db, Local};
use std::sync::Wait;
use sv_dir::Dir;
use sv_rests::rest;

impl<D: Dir + Drop> Local<D> {
    /// The lane gives up the SuperVersions that it caches for its gets, of all families, and tells how many those were.
    /// Its pins stay. The DB lock is taken once; takes no memory.
    pub fn rest<R: Wait>(&mut self, rt: &R, db: &Db<D>) -> u32
        requires local { IsLocal (table_of db.now.core) db.now.lanes self.old.lane self.old.handles self.old.pins self.old.seat }
        ensures local { IsLocal (table_of db.now.core) db.now.lanes self.new.lane self.new.handles self.new.pins self.new.seat }
        ensures kept { (self.new.lane ≡ self.old.lane) × (self.new.handles ≡ self.old.handles) × (self.new.pins ≡ self.old.pins) }
        ensures rests { Rests result (view_of self.old.seat) (view_of self.new.seat) }
    {
        rest(rt, &db.core, &mut self.seat)
    }
}
