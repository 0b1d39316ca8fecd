// Puts and deletes by the name of a family.
ghost use Rattle.std.specs.Prelude.{◌≡◌};
ghost use Rattle.sv_db.specs.Locals.{IsLocal};
ghost use Rattle.sv_model.specs.declared.writes.Op.TheVariants as op;
ghost use Rattle.sv_puts.specs.Putting.{Puts};
ghost use Rattle.sv_slots.specs.Known.{table_of, view_of};

use crate::locals::{Db, Local};
use std::alloc::Global;
use std::sync::Wait;
use sv_dir::Dir;
use sv_model::{Key, Name, Op, Refusal, Row, Value};
use sv_puts::put;

impl<D: Dir + Drop> Local<D> {
    // The row is written into the family of the lane's handle of the name.
    fn write<R: Wait>(
        &mut self,
        rt: &R,
        alloc: Global,
        db: &Db<D>,
        name: &Name,
        row: Row,
    ) -> Result<u64, Refusal>
        requires local { IsLocal (table_of db.now.core) db.now.lanes self.old.lane self.old.handles self.old.pins self.old.seat }
        ensures local { IsLocal (table_of db.now.core) db.now.lanes self.new.lane self.new.handles self.new.pins self.new.seat }
        ensures kept { (self.new.lane ≡ self.old.lane) × (self.new.handles ≡ self.old.handles) × (self.new.pins ≡ self.old.pins) }
        ensures puts { Puts self.old.lane name.now row result (view_of self.old.seat) (view_of self.new.seat) }
    {
        let seat = &mut self.seat;
        put(rt, alloc, &db.core, seat, db.lanes, self.lane, name, row)
    }

    /// Writes the value under the key into the family of the lane's handle of the name, and gives the write's number in
    /// the family, from 1. A switch to a new memtable comes first where the active one is full.
    ///
    /// Refused as `NotOpen` or `NoFamily` without a handle, then as `Dropped`, `JournalFull`, and where a switch is due
    /// as `Stalled`, `TooManyMemtables`, `RegisterFull` and `TooManyLive`. Want of memory never leaves the write, but may
    /// leave the switch.
    pub fn put<R: Wait>(
        &mut self,
        rt: &R,
        alloc: Global,
        db: &Db<D>,
        name: &Name,
        key: Key,
        value: Value,
    ) -> Result<u64, Refusal>
        requires local { IsLocal (table_of db.now.core) db.now.lanes self.old.lane self.old.handles self.old.pins self.old.seat }
        ensures local { IsLocal (table_of db.now.core) db.now.lanes self.new.lane self.new.handles self.new.pins self.new.seat }
        ensures kept { (self.new.lane ≡ self.old.lane) × (self.new.handles ≡ self.old.handles) × (self.new.pins ≡ self.old.pins) }
        ensures puts { Puts self.old.lane name.now (record { key = key; op = op.Put value }) result (view_of self.old.seat) (view_of self.new.seat) }
    {
        let op = Op::Put(value);
        self.write(rt, alloc, db, name, Row { key, op })
    }

    /// Deletes what stands under the key; else as `put`.
    pub fn delete<R: Wait>(
        &mut self,
        rt: &R,
        alloc: Global,
        db: &Db<D>,
        name: &Name,
        key: Key,
    ) -> Result<u64, Refusal>
        requires local { IsLocal (table_of db.now.core) db.now.lanes self.old.lane self.old.handles self.old.pins self.old.seat }
        ensures local { IsLocal (table_of db.now.core) db.now.lanes self.new.lane self.new.handles self.new.pins self.new.seat }
        ensures kept { (self.new.lane ≡ self.old.lane) × (self.new.handles ≡ self.old.handles) × (self.new.pins ≡ self.old.pins) }
        ensures puts { Puts self.old.lane name.now (record { key = key; op = op.Delete }) result (view_of self.old.seat) (view_of self.new.seat) }
    {
        let op = Op::Delete;
        self.write(rt, alloc, db, name, Row { key, op })
    }
}
