// Holds of the bench, and the removal of files.
ghost use Rattle.std.specs.Prelude.{◌<◌};

use crate::bench::Bench;
use sv_model::{FamilyId, FileNumber, Refusal};

impl Bench {
    pub fn hold(&mut self, lane: u8) -> Result<u32, Refusal>
        requires { lane < 32 }
    {
        self.state.hold(lane)
    }

    pub fn unhold(&mut self, lane: u8) -> Result<u32, Refusal>
        requires { lane < 32 }
    {
        self.state.unhold(lane)
    }

    /// The files that the lane may copy.
    pub fn live(&mut self, lane: u8) -> Result<Vec<FileNumber>, Refusal>
        requires { lane < 32 }
    {
        self.state.live_files(lane)
    }

    /// Takes each number that is ready by itself: it is Gone, but for the one whose removal fails. Tells the ready ones.
    pub fn purge(&mut self, fails: u64) -> Result<Vec<FileNumber>, Refusal> {
        let ready = self.state.ready()?;
        for number in ready.as_slice() {
            self.remove(*number, number.0 != fails);
        }
        Ok(ready)
    }

    fn remove(&mut self, number: FileNumber, gone: bool) {
        if !self.state.take(number) {
            return;
        }
        self.state.ungrab(number, gone);
        self.state.end_job();
    }

    /// Takes a snapshot, and tells its number.
    pub fn snap(&mut self) -> Result<u32, Refusal> {
        let made = self.state.snap()?;
        Ok(made.0)
    }

    pub fn unsnap(&mut self, id: u64) -> Result<(), Refusal> {
        self.state.unsnap(id)
    }

    /// Where the snapshot reads the family, which is below 16.
    pub fn cut_at(&self, id: u64, family: FamilyId) -> Result<u64, Refusal>
        requires { family < 16 }
    {
        self.state.cut_at(id, family)
    }
}
