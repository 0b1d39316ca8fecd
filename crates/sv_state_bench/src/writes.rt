// Writes into the bench, and the switch to a new memtable.
ghost use Rattle.std.specs.Prelude.{◌≡◌, ◌<◌, OnOk};
ghost use Rattle.sv_laws.specs.NewCurrents.{IsSwitched};
ghost use Rattle.sv_state.specs.Writing.{CanWrite};
ghost use Rattle.sv_state_bench.specs.Freezing.{HasRow};

use crate::bench::Bench;
use crate::waits::pack_of;
use std::sync::Arc;
use sv_memtable::MemCell;
use sv_model::{FamilyId, Key, Name, Op, Refusal, Row, Value};
use sv_state::Plan;

impl Bench {
    /// Puts the key, with a value, after a switch where one is due. Tells the write's number in its family.
    pub fn put(&mut self, lane: u8, name: &Name, key: &str) -> Result<u64, Refusal>
        requires { lane < 32 }
    {
        let row = Row {
            key: Key::new(self.alloc, key.as_bytes())?,
            op: Op::Put(Value::new(self.alloc, b"value")?),
        };
        match self.state.write_plan(lane, name)? {
            Plan::Add { family, .. } => self.append(lane, family, row),
            Plan::Switch { family, .. } => {
                self.switch(family)?;
                let number = self.append(lane, family, row);
                self.settle();
                number
            }
        }
    }

    fn append(&mut self, lane: u8, family: FamilyId, row: Row) -> Result<u64, Refusal>
        requires { CanWrite self.old lane family }
    {
        let active = &mut self.actives[family.0 as usize];
        active.add(&row.key, &row.op)?;
        Ok(self.state.write_done(lane, family, row))
    }

    // Freezes the family's active memtable. The SuperVersion before waits.
    pub(crate) fn switch(&mut self, family: FamilyId) -> Result<(), Refusal>
        requires { HasRow self.old.books family }
        ensures switched { OnOk result (IsSwitched self.old.books self.new.books family) }
        ensures spare { self.new.spare ≡ self.old.spare }
    {
        let Ok(()) = self.waiting.reserve(1) else {
            return Err(Refusal::OutOfMemory);
        };
        let frozen = self.actives[family.0 as usize].freeze()?;
        let Ok(frozen) = Arc::new(self.alloc, frozen) else {
            return Err(Refusal::OutOfMemory);
        };
        let install = self.state.switch(family, frozen)?;
        let Some((_, mem)) = install.vacant else {
            unreachable!();
        };
        self.actives[family.0 as usize] = MemCell::new(self.alloc, mem);
        self.waiting.push_reserved(pack_of(&install.old));
        Ok(())
    }
}
