// Holds, removals and snapshots of a plain state.
use crate::plain::{Plain, Stage};
use sv_model::{OutOfMemory, Refusal};

impl Plain {
    pub fn hold(&mut self, lane: u8) -> Result<u64, Refusal> {
        if lane as usize >= self.holds.len() {
            return Err(Refusal::NoHold);
        }
        let held = self.holds[lane as usize];
        if held >= 255 {
            return Err(Refusal::TooManyHolds);
        }
        self.holds[lane as usize] = held + 1;
        Ok(held + 1)
    }

    pub fn unhold(&mut self, lane: u8) -> Result<u64, Refusal> {
        if lane as usize >= self.holds.len() || self.holds[lane as usize] == 0 {
            return Err(Refusal::NoHold);
        }
        self.holds[lane as usize] -= 1;
        Ok(self.holds[lane as usize])
    }

    pub fn held(&self) -> u64 {
        let mut all: u64 = 0;
        for held in &self.holds {
            all = all.saturating_add(*held);
        }
        all
    }

    // The least number of an output under way.
    fn bound(&self) -> u64 {
        let mut bound = u64::MAX;
        for family in &self.families {
            if let Some(number) = family.busy {
                bound = bound.min(number as u64);
            }
        }
        bound
    }

    fn ready(&self) -> Result<Vec<u64>, OutOfMemory> {
        let bound = self.bound();
        let mut ready = Vec::new(self.alloc);
        for number in &self.obsolete()? {
            if *number < bound {
                ready.push(*number)?;
            }
        }
        Ok(ready)
    }

    pub fn purge(&mut self, fails: u64) -> Result<Vec<u64>, Refusal> {
        let count = self.held();
        if count > 0 {
            return Err(Refusal::Disabled { count });
        }
        let ready = self.ready()?;
        for number in &ready {
            if *number != fails {
                self.set_stage(*number as usize, Stage::Gone);
            }
        }
        Ok(ready)
    }

    fn shown(&self) -> Result<Vec<u64>, OutOfMemory> {
        let mut shown = Vec::new(self.alloc);
        for index in 0..self.stages.len() {
            let number = index + 1;
            let has = self.families.iter().any(|family| !family.dropped
                && family.last.iter().any(|file| file.number == number));
            if has {
                shown.push(number as u64)?;
            }
        }
        Ok(shown)
    }

    pub fn live(&self, lane: u8) -> Result<Vec<u64>, Refusal> {
        if lane as usize >= self.holds.len() || self.holds[lane as usize] == 0 {
            return Err(Refusal::NoHold);
        }
        Ok(self.shown()?)
    }

    fn live_snapshots(&self) -> usize {
        self.snapshots.iter().filter(|taken| taken.1).count()
    }

    pub fn snap(&mut self) -> Result<usize, Refusal> {
        if self.live_snapshots() >= 64 {
            return Err(Refusal::TooManySnapshots);
        }
        if self.snapshots.push((self.writes.len(), true)).is_err() {
            return Err(Refusal::OutOfMemory);
        }
        Ok(self.snapshots.len())
    }

    // The place in the list of the Live snapshot of this number.
    fn snapshot(&self, id: u64) -> Result<usize, Refusal> {
        for (index, taken) in self.snapshots.iter().enumerate() {
            if taken.1 && (index as u64).saturating_add(1) == id {
                return Ok(index);
            }
        }
        Err(Refusal::NoSnapshot)
    }

    pub fn unsnap(&mut self, id: u64) -> Result<(), Refusal> {
        let index = self.snapshot(id)?;
        if index < self.snapshots.len() {
            self.snapshots[index].1 = false;
        }
        Ok(())
    }

    pub fn cut_at(&self, id: u64, family: usize) -> Result<usize, Refusal> {
        let index = self.snapshot(id)?;
        if index >= self.snapshots.len() {
            return Ok(0);
        }
        Ok(self.written_of(family, self.snapshots[index].0))
    }
}
