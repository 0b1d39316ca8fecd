// The bench is closed, or gives up its files at once.
ghost use Rattle.std.specs.Prelude.{◌≡◌};

use crate::bench::Bench;
use crate::waits::pack_of;
use sv_model::{End, FamilyId, FileNumber, Refusal, Summary};
use sv_state::State;

impl Bench {
    /// Ends the current of each family that is not dropped and removes what is Obsolete then. Gives the numbers of the
    /// report.
    pub fn close(self) -> Result<Summary, Refusal> {
        let mut state = self.state;
        for id in 0..16 {
            end_family(&mut state, FamilyId(id));
        }
        let ready = state.ready()?;
        for number in ready.as_slice() {
            remove_ready(&mut state, *number);
        }
        Ok(state.summary(End::Clean)?)
    }

    /// The numbers that are handed out for removal at once, and how many jobs are under way then.
    pub fn find_obsolete(self) -> Result<(Vec<FileNumber>, u32), Refusal> {
        let mut state = self.state;
        let found = state.find_obsolete()?;
        Ok((found, state.jobs()))
    }

    /// The numbers that are handed out after a listing, and the numbers of the report then.
    pub fn scan(self, listed: &[FileNumber]) -> Result<(Vec<FileNumber>, Summary), Refusal> {
        let mut state = self.state;
        let found = state.scan(listed)?;
        let summary = state.summary(End::Clean)?;
        Ok((found, summary))
    }
}

// The family has no current any more, where it is not dropped.
fn end_family(state: &mut State, family: FamilyId)
    ensures { state.new.books.files.jobs ≡ state.old.books.files.jobs }
{
    state.laws();
    let Some(_) = state.kept(family) else {
        return;
    };
    if !state.has_current(family) {
        return;
    }
    let install = state.end_current(family);
    let Some(pack) = pack_of(&install.old) else {
        return;
    };
    let _ = state.cleanup(pack);
}

// The number is Gone, where it may be taken.
fn remove_ready(state: &mut State, number: FileNumber)
    requires { state.old.books.files.jobs ≡ 0 }
    ensures { state.new.books.files.jobs ≡ 0 }
{
    if !state.take(number) {
        return;
    }
    state.ungrab(number, true);
    state.end_job();
}
