// Pins by the name of a family, and gets through them.
ghost use Rattle.std.specs.Prelude.{None, Ok, Some, length, ℕ, ◌≡◌, ◌⊎◌};
ghost use Rattle.sv_db.specs.Locals.{IsLocal};
ghost use Rattle.sv_borrows.specs.Lending.{MayLend};
ghost use Rattle.sv_db.specs.Named.{GetsPinned, IsUnpinned, PinsNamed, PinsOf, Unpins};
ghost use Rattle.sv_slots.specs.Known.{table_of, view_of};

use crate::handles::family_of;
use crate::locals::{Db, Local};
use crate::pins::{keep, kept, least_free, taken};
use crate::unopened::unopened;
use std::alloc::Global;
use std::sync::Wait;
use sv_borrows::let_go;
use sv_dir::Dir;
use sv_gets::{Got, get_through, pin_of};
use sv_model::{FamilyId, Key, Name, OutOfMemory, Refusal, SvSerial};

impl<D: Dir + Drop> Local<D> {
    // Pins the current SuperVersion of a family of which the lane has a handle.
    fn pin_own<R: Wait>(
        &mut self,
        rt: &R,
        db: &Db<D>,
        family: FamilyId,
    ) -> Result<(u8, SvSerial), Refusal>
        requires local { IsLocal (table_of db.now.core) db.now.lanes self.old.lane self.old.handles self.old.pins self.old.seat }
        requires lend { MayLend family (view_of self.old.seat) }
        ensures local { IsLocal (table_of db.now.core) db.now.lanes self.new.lane self.new.handles self.new.pins self.new.seat }
        ensures kept { (self.new.lane ≡ self.old.lane) × (self.new.handles ≡ self.old.handles) }
        ensures pins { PinsOf self.old.pins self.new.pins family result (view_of self.old.seat) (view_of self.new.seat) }
    {
        let Some(number) = least_free(&self.pins) else {
            return Err(Refusal::TooManyPins);
        };
        match pin_of(rt, &db.core, &mut self.seat, family) {
            Ok(sv) => Ok(keep(&mut self.pins, number, sv)),
            Err(OutOfMemory) => Err(Refusal::OutOfMemory),
        }
    }

    /// Pins the current SuperVersion of the family of the lane's handle of the name. Gives the number of the pin, the
    /// least from 0 to 15 that is free, and the serial of the SuperVersion. Refused as a get is without a handle, then
    /// as `TooManyPins` where none is free.
    pub fn pin<R: Wait>(
        &mut self,
        rt: &R,
        db: &Db<D>,
        name: &Name,
    ) -> Result<(u8, SvSerial), Refusal>
        requires local { IsLocal (table_of db.now.core) db.now.lanes self.old.lane self.old.handles self.old.pins self.old.seat }
        ensures local { IsLocal (table_of db.now.core) db.now.lanes self.new.lane self.new.handles self.new.pins self.new.seat }
        ensures kept { (self.new.lane ≡ self.old.lane) × (self.new.handles ≡ self.old.handles) }
        ensures pins { PinsNamed self.old.lane self.old.handles self.old.pins self.new.pins name.now result (view_of self.old.seat) (view_of self.new.seat) }
    {
        match family_of(&self.handles, name) {
            Some(family) => self.pin_own(rt, db, family),
            None => Err(unopened(rt, &db.core, &mut self.seat, self.lane, &self.handles, name)),
        }
    }

    /// Lets the pin of this number go. Refused as `NoPin` where the lane has none. Takes no memory.
    pub fn unpin<R: Wait>(&mut self, rt: &R, db: &Db<D>, number: u64) -> Result<(), Refusal>
        requires local { IsLocal (table_of db.now.core) db.now.lanes self.old.lane self.old.handles self.old.pins self.old.seat }
        ensures local { IsLocal (table_of db.now.core) db.now.lanes self.new.lane self.new.handles self.new.pins self.new.seat }
        ensures kept { (self.new.lane ≡ self.old.lane) × (self.new.handles ≡ self.old.handles) }
        ensures unpins { ((result ≡ Ok tt) × Unpins self.old.pins self.new.pins number (view_of self.old.seat) (view_of self.new.seat)) ⊎ IsUnpinned self.old.pins self.new.pins number result (view_of self.old.seat) (view_of self.new.seat) }
    {
        let Some(sv) = taken(&mut self.pins, number) else {
            return Err(Refusal::NoPin);
        };
        let_go(rt, &db.core, &mut self.seat, sv);
        Ok(())
    }

    /// The value of the key in the SuperVersion that the pin of this number keeps. Refused as `NoPin` where the lane has
    /// none; then, file by file, as `DirFault` or `BadFile`. The DB lock is not taken.
    pub fn get_pinned<R: Wait>(
        &mut self,
        rt: &R,
        alloc: Global,
        db: &Db<D>,
        number: u64,
        key: &Key,
    ) -> Result<Got, Refusal>
        requires local { IsLocal (table_of db.now.core) db.now.lanes self.old.lane self.old.handles self.old.pins self.old.seat }
        ensures local { IsLocal (table_of db.now.core) db.now.lanes self.new.lane self.new.handles self.new.pins self.new.seat }
        ensures kept { (self.new.lane ≡ self.old.lane) × (self.new.handles ≡ self.old.handles) × (self.new.pins ≡ self.old.pins) }
        ensures gets { GetsPinned self.old.pins number key.now result (view_of self.old.seat) (view_of self.new.seat) ⊎ IsUnpinned self.old.pins self.new.pins number result (view_of self.old.seat) (view_of self.new.seat) }
    {
        let Some(sv) = kept(&self.pins, number) else {
            return Err(Refusal::NoPin);
        };
        get_through(rt, alloc, &db.core, &mut self.seat, sv, key)
    }
}
