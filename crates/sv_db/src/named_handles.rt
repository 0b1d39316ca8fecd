// Handles of families, by name.
ghost use Rattle.std.specs.Prelude.{IfErr, IfOk, ◌≡◌};
ghost use Rattle.sv_db.specs.Handles.{ClosesOwn};
ghost use Rattle.sv_db.specs.Locals.{IsLocal};
ghost use Rattle.sv_handles.specs.Handling.{DropsFamily};
ghost use Rattle.sv_releases.specs.Releasing.{Releases};
ghost use Rattle.sv_slots.specs.Known.{table_of, view_of};

use crate::handles::close_handle;
use crate::locals::{Db, Local};
use std::sync::Wait;
use sv_dir::Dir;
use sv_handles::drop_family;
use sv_model::{FamilyId, Name, Refusal};
use sv_releases::release;

impl<D: Dir + Drop> Local<D> {
    /// Drops the family of the lane's handle of the name, which is read through handles that stand. Refused as
    /// `IsDefault` where the name is `default`, then as `NotOpen` or `NoFamily` without a handle, then as `Dropped`. Takes
    /// no memory.
    pub fn drop_family<R: Wait>(
        &mut self,
        rt: &R,
        db: &Db<D>,
        name: &Name,
    ) -> Result<FamilyId, Refusal>
        requires local { IsLocal (table_of db.now.core) db.now.lanes self.old.lane self.old.handles self.old.pins self.old.seat }
        ensures local { IsLocal (table_of db.now.core) db.now.lanes self.new.lane self.new.handles self.new.pins self.new.seat }
        ensures kept { (self.new.lane ≡ self.old.lane) × (self.new.handles ≡ self.old.handles) × (self.new.pins ≡ self.old.pins) }
        ensures drops { DropsFamily self.old.lane name.now result (view_of self.old.seat) (view_of self.new.seat) }
    {
        drop_family(rt, &db.core, &mut self.seat, self.lane, name)
    }

    /// Takes the lane's handle of the name back. A family that was dropped is retired by its last handle: it has no
    /// current any more. Refused as `IsDefault` where the name is `default`, then as `NotOpen` or `NoFamily` without a
    /// handle. Takes no memory.
    pub fn release<R: Wait>(&mut self, rt: &R, db: &Db<D>, name: &Name) -> Result<(), Refusal>
        requires local { IsLocal (table_of db.now.core) db.now.lanes self.old.lane self.old.handles self.old.pins self.old.seat }
        ensures local { IsLocal (table_of db.now.core) db.now.lanes self.new.lane self.new.handles self.new.pins self.new.seat }
        ensures kept { (self.new.lane ≡ self.old.lane) × (self.new.pins ≡ self.old.pins) }
        ensures closes { IfOk result (λ _. ClosesOwn name.now self.old.handles self.new.handles) }
        ensures stays { IfErr result (λ _. self.new.handles ≡ self.old.handles) }
        ensures releases { Releases self.old.lane name.now result (view_of self.old.seat) (view_of self.new.seat) }
    {
        let seat = &mut self.seat;
        release(rt, &db.core, seat, db.lanes, self.lane, name)?;
        close_handle(&mut self.handles, name);
        Ok(())
    }
}
