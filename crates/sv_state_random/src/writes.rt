// Writes into a plain state, and the switch to a new memtable.
use crate::plain::Plain;
use sv_model::{OutOfMemory, Refusal};

impl Plain {
    /// The rows of the family's active memtable, and how many immutable ones it has.
    pub fn active_rows(&self, family: usize) -> Result<(usize, usize), OutOfMemory> {
        let Some(it) = self.copy_current(family)? else {
            return Ok((0, 0));
        };
        let rows = self.written(family).saturating_sub(it.base);
        Ok((rows, it.members.len()))
    }

    pub fn switch(&mut self, family: usize) -> Result<(), OutOfMemory> {
        let Some(mut made) = self.copy_current(family)? else {
            return Ok(());
        };
        let count = self.written(family);
        made.members.push(made.active)?;
        made.active = self.firsts.len();
        made.base = count;
        self.firsts.push(count)?;
        self.install(made)
    }

    // Whether a switch comes first.
    fn due_write(&self, family: usize) -> Result<bool, Refusal> {
        let (rows, members) = self.active_rows(family)?;
        if family >= self.families.len() || (rows as u64) < self.families[family].rows {
            return Ok(false);
        }
        if members as u64 >= self.families[family].most {
            return Err(Refusal::Stalled);
        }
        self.due_memtable()?;
        self.due_super()?;
        Ok(true)
    }

    pub fn put(&mut self, lane: u8, name: &str) -> Result<usize, Refusal> {
        let family = self.find_standing(lane, name)?;
        let switches = self.due_write(family)?;
        if switches {
            self.switch(family)?;
        }
        if self.writes.push(family).is_err() {
            return Err(Refusal::OutOfMemory);
        }
        if switches {
            self.settle();
        }
        Ok(self.written(family))
    }
}
