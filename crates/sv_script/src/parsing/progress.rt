// What was read of a script so far.
ghost use Rattle.std.specs.Prelude.{◌<◌};
ghost use Rattle.sv_script.specs.declared.scripts.TheConstants.{MAX_PHASES};

use crate::scripts::{Line, MAX_PHASES};
use sv_model::Items;

// What was read of a script so far.
#[derive(Drop)]
pub(crate) struct Progress {
    // The number of the next line, from 1.
    pub number: u64,
    // The phase in which the next line stands, from 0.
    pub phase: u32,
    pub lines: Items<Line>,
    ghost small: { phase < MAX_PHASES },
}
