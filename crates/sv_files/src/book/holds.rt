// The holds of lanes. While one stands, nothing is handed out for removal.
ghost use Rattle.std.specs.Prelude.{◌≡◌, ◌<◌, ◌+◌, ◌-◌, IfOk, OnErr, length, sum, slice_index};
ghost use Rattle.sv_model.specs.Refusals.{RefusesExactly};
ghost use Rattle.sv_files.specs.Calls.{hold_refusal, unhold_refusal, with_hold, without_holds};

use super::{FileBook, LANES};
use sv_model::{MAX_HOLDS, Refusal};

impl FileBook {
    /// How many holds stand, over all lanes: at most 8,160. Takes no memory.
    pub fn holds(&self) -> u32
        ensures { result ≡ sum self.now.holds }
    {
        all(&self.holds)
    }

    /// How many purges and scans are under way: at most 32. Takes no memory.
    pub fn jobs(&self) -> u32
        ensures { result ≡ self.now.jobs }
    {
        self.jobs
    }

    /// One hold more of the lane. Answers its count after. Refused as `TooManyHolds` exactly where the lane
    /// has 255; a refusal leaves the book as it was. Takes no memory.
    pub fn hold(&mut self, lane: u8) -> Result<u32, Refusal>
        requires { lane < 32 }
        ensures held { IfOk result (λ count. (count ≡ slice_index self.old.holds lane + 1)
            × (self.new ≡ with_hold self.old lane count)) }
        ensures refused { RefusesExactly (hold_refusal (slice_index self.old.holds lane)) result }
        ensures kept { OnErr result (self.new ≡ self.old) }
    {
        let count = self.holds[lane as usize];
        if count == MAX_HOLDS {
            return Err(Refusal::TooManyHolds);
        }
        self.holds[lane as usize] = count + 1;
        Ok(u32::from(count) + 1)
    }

    /// One hold less of the lane. Answers its count after. Refused as `NoHold` exactly where the lane has
    /// none; a refusal leaves the book as it was. Takes no memory.
    pub fn unhold(&mut self, lane: u8) -> Result<u32, Refusal>
        requires { lane < 32 }
        ensures ended { IfOk result (λ count. (count + 1 ≡ slice_index self.old.holds lane)
            × (self.new ≡ with_hold self.old lane count)) }
        ensures refused { RefusesExactly (unhold_refusal (slice_index self.old.holds lane)) result }
        ensures kept { OnErr result (self.new ≡ self.old) }
    {
        let count = self.holds[lane as usize];
        if count == 0 {
            return Err(Refusal::NoHold);
        }
        self.holds[lane as usize] = count - 1;
        Ok(u32::from(count) - 1)
    }

    /// Ends the holds of all lanes. Takes no memory.
    pub fn end_holds(&mut self)
        ensures { self.new ≡ without_holds self.old }
    {
        self.holds = [0; LANES];
    }
}

fn all(holds: &[u8]) -> u32
    requires { length holds.now ≡ 32 }
    ensures { result ≡ sum holds.now }
{
    holds.iter().map(|count| u32::from(*count)).sum()
}
