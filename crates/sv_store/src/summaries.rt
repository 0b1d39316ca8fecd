// The numbers of the report.
ghost use Rattle.std.specs.Prelude.{◌≡◌, IfOk};
ghost use Rattle.sv_model.specs.Summaries.{summary_of};

use crate::store::Store;
use sv_model::{End, OutOfMemory, Summary};

impl Store {
    /// The numbers of the report, after a close that ended so.
    pub fn summary(&self, end: End) -> Result<Summary, OutOfMemory>
        ensures { IfOk result (λ summary. summary ≡ summary_of end self.now.books) }
    {
        self.state.summary(end)
    }
}
