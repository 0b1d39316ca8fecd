// Flushes and compactions of the bench: each begins, and ends or fails.
ghost use Rattle.std.specs.Prelude.{◌<◌};
ghost use Rattle.sv_state.specs.Capturing.{CanBegin};

use crate::bench::Bench;
use crate::waits::pack_of;
use std::mem;
use sv_model::{FamilyId, Name, Pack, Refusal};

/// A file's number, and its range.
pub type Told = (u64, u64, u64);

impl Bench {
    /// Begins a flush, after a switch where one is due.
    pub fn begin_flush(&mut self, lane: u8, name: &Name) -> Result<Told, Refusal>
        requires { lane < 32 }
    {
        let plan = self.state.flush_plan(lane, name)?;
        if plan.cell.is_none() {
            return self.capture(plan.family);
        }
        self.switch(plan.family)?;
        let file = self.capture(plan.family);
        self.settle();
        file
    }

    // Captures the number of the file of a flush.
    fn capture(&mut self, family: FamilyId) -> Result<Told, Refusal>
        requires { CanBegin self.old.books family }
    {
        let Ok(()) = self.outputs.reserve(1) else {
            return Err(Refusal::OutOfMemory);
        };
        let file = self.state.flush_begin(family)?;
        let told = (file.number.0, file.from, file.to);
        self.outputs.push_reserved(Some(file));
        Ok(told)
    }

    /// Begins a compaction.
    pub fn begin_compaction(&mut self, lane: u8, name: &Name) -> Result<Told, Refusal>
        requires { lane < 32 }
    {
        let Ok(()) = self.outputs.reserve(1) else {
            return Err(Refusal::OutOfMemory);
        };
        let file = self.state.compact_plan(lane, name)?;
        let told = (file.number.0, file.from, file.to);
        self.outputs.push_reserved(Some(file));
        Ok(told)
    }

    /// A flush from its beginning to its end.
    pub fn flush(&mut self, lane: u8, name: &Name) -> Result<Told, Refusal>
        requires { lane < 32 }
    {
        let place = self.outputs.len();
        let file = self.begin_flush(lane, name)?;
        self.end(place)?;
        Ok(file)
    }

    /// A compaction from its beginning to its end.
    pub fn compact(&mut self, lane: u8, name: &Name) -> Result<Told, Refusal>
        requires { lane < 32 }
    {
        let place = self.outputs.len();
        let file = self.begin_compaction(lane, name)?;
        self.end(place)?;
        Ok(file)
    }

    /// Ends the output at this place, and tells the new current; none where none is under way there.
    pub fn end(&mut self, place: usize) -> Result<Option<Pack>, Refusal> {
        if place >= self.outputs.len() {
            return Ok(None);
        }
        let Ok(()) = self.waiting.reserve(1) else {
            return Err(Refusal::OutOfMemory);
        };
        let Some(file) = mem::replace(&mut self.outputs[place], None) else {
            return Ok(None);
        };
        if file.bottom.last {
            let install = self.state.compact_done(file)?;
            self.waiting.push_reserved(pack_of(&install.old));
            self.settle();
            return Ok(Some(install.new));
        }
        let install = self.state.flush_done(file)?;
        self.waiting.push_reserved(pack_of(&install.old));
        self.settle();
        Ok(Some(install.new))
    }

    /// How many cuts the output at this place keeps.
    pub fn cuts(&self, place: usize) -> Option<u64> {
        if place >= self.outputs.len() {
            return None;
        }
        let Some(file) = &self.outputs[place] else {
            return None;
        };
        Some(file.bottom.cuts.as_slice().len() as u64)
    }

    /// Gives up the output at this place, and tells its number; none where none is under way there.
    pub fn give_up(&mut self, place: usize) -> Option<u64> {
        if place >= self.outputs.len() {
            return None;
        }
        let file = mem::replace(&mut self.outputs[place], None)?;
        self.state.output_failed(file.number);
        Some(file.number.0)
    }
}
