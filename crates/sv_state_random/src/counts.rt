// What is counted in a plain state.
use crate::plain::{Plain, Stage};
use sv_model::{OutOfMemory, Refusal};

fn mark(marks: &mut Vec<bool>, index: usize) {
    if index < marks.len() {
        marks[index] = true;
    }
}

impl Plain {
    /// The writes of the family among these first ones.
    pub fn written_of(&self, family: usize, first: usize) -> usize {
        self.writes
            .iter()
            .take(first)
            .filter(|of| **of == family)
            .count()
    }

    pub fn written(&self, family: usize) -> usize {
        self.written_of(family, self.writes.len())
    }

    pub fn live_supers(&self) -> usize {
        self.supers.iter().filter(|it| it.live).count()
    }

    /// By memtable, whether a Live SuperVersion names it.
    pub fn named_memtables(&self) -> Result<Vec<bool>, OutOfMemory> {
        let mut marks = vec![in self.alloc; false; self.firsts.len()]?;
        for it in &self.supers {
            if !it.live {
                continue;
            }
            mark(&mut marks, it.active);
            for member in &it.members {
                mark(&mut marks, *member);
            }
        }
        Ok(marks)
    }

    pub fn live_memtables(&self) -> Result<usize, OutOfMemory> {
        let marks = self.named_memtables()?;
        Ok(marks.iter().filter(|named| **named).count())
    }

    /// Whether the family is dropped and no lane has a handle of it.
    pub fn is_retired(&self, family: usize) -> bool {
        family < self.families.len()
            && self.families[family].dropped
            && !self.families[family].handles.iter().any(|held| *held)
    }

    /// By file number, whether a Live SuperVersion or the last Version of a family names it.
    pub fn named_files(&self) -> Result<Vec<bool>, OutOfMemory> {
        let mut marks = vec![in self.alloc; false; self.stages.len()]?;
        for it in &self.supers {
            if !it.live {
                continue;
            }
            for file in &it.files {
                mark(&mut marks, file.number.saturating_sub(1));
            }
        }
        for index in 0..self.families.len() {
            if self.is_retired(index) {
                continue;
            }
            for file in &self.families[index].last {
                mark(&mut marks, file.number.saturating_sub(1));
            }
        }
        Ok(marks)
    }

    /// The Obsolete numbers, ascending.
    pub fn obsolete(&self) -> Result<Vec<u64>, OutOfMemory> {
        let named = self.named_files()?;
        let mut found = Vec::new(self.alloc);
        for (index, stage) in self.stages.iter().enumerate() {
            let obsolete = match stage {
                Stage::Failed => true,
                Stage::Written => index < named.len() && !named[index],
                Stage::UnderWay | Stage::Gone => false,
            };
            if obsolete {
                found.push((index as u64).saturating_add(1))?;
            }
        }
        Ok(found)
    }

    pub fn gone_files(&self) -> usize {
        self.stages
            .iter()
            .filter(|stage| **stage == Stage::Gone)
            .count()
    }

    /// Why no SuperVersion can be made, if none can.
    pub fn due_super(&self) -> Result<(), Refusal> {
        if self.live_supers() >= 256 {
            return Err(Refusal::TooManyLive);
        }
        Ok(())
    }

    /// Why no memtable can be made, if none can.
    pub fn due_memtable(&self) -> Result<(), Refusal> {
        if self.live_memtables()? >= 64 {
            return Err(Refusal::TooManyMemtables);
        }
        Ok(())
    }
}
