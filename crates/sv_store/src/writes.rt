// Writes.
ghost use Rattle.std.specs.Prelude.{◌≡◌};
ghost use Rattle.sv_model.specs.declared.writes.Op.TheVariants as op;
ghost use Rattle.sv_state.specs.Follows.{Follows};
ghost use Rattle.sv_store.specs.Writing.{Writes};

use crate::appends::{LANE, append};
use crate::store::Store;
use crate::switches::switch;
use sv_model::{Key, Name, Op, Refusal, Row, Value};
use sv_state::Plan;

impl Store {
    /// Accepts a put into the family of the lane's handle of the name, and gives its number in the family. A switch comes
    /// first where the active memtable has as many rows as the family's options say.
    ///
    /// Refused as `NotOpen` or `NoFamily` without a handle, then as `Dropped`, `JournalFull`, and where a switch is due as
    /// `Stalled`, `TooManyMemtables`, `RegisterFull` and `TooManyLive`. Only out of memory may leave the switch done.
    pub fn put(&mut self, name: &Name, key: Key, value: Value) -> Result<u64, Refusal>
        ensures writes { Writes self.old self.new name.now (record { key = key; op = op.Put value }) result }
        ensures follows { Follows self.old.books self.new.books }
    {
        let op = Op::Put(value);
        self.write(name, Row { key, op })
    }

    /// Accepts a delete; else as `put`.
    pub fn delete(&mut self, name: &Name, key: Key) -> Result<u64, Refusal>
        ensures writes { Writes self.old self.new name.now (record { key = key; op = op.Delete }) result }
        ensures follows { Follows self.old.books self.new.books }
    {
        let op = Op::Delete;
        self.write(name, Row { key, op })
    }

    fn write(&mut self, name: &Name, row: Row) -> Result<u64, Refusal>
        ensures writes { Writes self.old self.new name.now row result }
        ensures follows { Follows self.old.books self.new.books }
    {
        let plan = match self.state.write_plan(LANE, name) {
            Ok(plan) => plan,
            Err(refusal) => return Err(refusal),
        };
        match plan {
            Plan::Add { family, cell } => {
                append(&mut self.state, &mut self.cells, family, cell, row)
            }
            Plan::Switch { family, cell } => {
                let (state, cells) = (&mut self.state, &mut self.cells);
                let cell = match switch(self.alloc, state, cells, family, cell) {
                    Ok(cell) => cell,
                    Err(refusal) => return Err(refusal),
                };
                append(&mut self.state, &mut self.cells, family, cell, row)
            }
        }
    }
}
