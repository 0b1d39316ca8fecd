// Gets by the name of a family.
ghost use Rattle.std.specs.Prelude.{◌≡◌};
ghost use Rattle.sv_db.specs.Locals.{IsLocal};
ghost use Rattle.sv_db.specs.Named.{GetsNamed};
ghost use Rattle.sv_slots.specs.Known.{table_of, view_of};

use crate::handles::family_of;
use crate::locals::{Db, Local};
use crate::unopened::unopened;
use std::alloc::Global;
use std::sync::Wait;
use sv_dir::Dir;
use sv_gets::{Got, get_of};
use sv_model::{Key, Name, Refusal};

impl<D: Dir + Drop> Local<D> {
    /// The value of the key in the family of the lane's handle of the name. Without a handle it is refused as `NotOpen`
    /// or `NoFamily`; then, file by file, as `DirFault` or `BadFile`.
    pub fn get<R: Wait>(
        &mut self,
        rt: &R,
        alloc: Global,
        db: &Db<D>,
        name: &Name,
        key: &Key,
    ) -> Result<Got, Refusal>
        requires local { IsLocal (table_of db.now.core) db.now.lanes self.old.lane self.old.handles self.old.pins self.old.seat }
        ensures local { IsLocal (table_of db.now.core) db.now.lanes self.new.lane self.new.handles self.new.pins self.new.seat }
        ensures kept { (self.new.lane ≡ self.old.lane) × (self.new.handles ≡ self.old.handles) × (self.new.pins ≡ self.old.pins) }
        ensures gets { GetsNamed self.old.lane self.old.handles name.now key.now result (view_of self.old.seat) (view_of self.new.seat) }
    {
        match family_of(&self.handles, name) {
            Some(family) => get_of(rt, alloc, &db.core, &mut self.seat, family, key),
            None => Err(unopened(rt, &db.core, &mut self.seat, self.lane, &self.handles, name)),
        }
    }
}
