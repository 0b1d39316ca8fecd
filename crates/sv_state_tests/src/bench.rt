// A state under test. No current of a family is ended, so each call may be made by its name, and of the SuperVersions
// that are no family's current any more one waits to be cleaned up.
ghost use Rattle.std.specs.Prelude.{◌≡◌};
ghost use Rattle.sv_state_tests.specs.Standing.{WaitsFor};

use std::alloc::Global;
use std::marker::Model;
use sv_model::{FamilyId, FileNumber, Name, OptionName, Pack, Refusal, SvRef};
use sv_objects::Body;
use sv_state::State;

pub const LANES: u8 = 32;

#[derive(Drop)]
pub struct Bench {
    state: State,
    waiting: Option<Pack>,
}

impl Model for Bench {
    ghost use Rattle.sv_state.specs.Seen.{StateSeen};
    ghost use Rattle.sv_state_tests.specs.Standing.{Stands};

    ghost Value = { StateSeen };

    ghost view = { λ b. b.state };

    ghost invariant = { λ b. Stands b.state.books b.waiting };
}

fn named(bytes: &[u8]) -> Result<Name, Refusal> {
    Name::new(bytes).ok_or(Refusal::NoFamily)
}

// Lets the SuperVersion of the reference wait, unless one waits already.
fn put_by(waiting: &mut Option<Pack>, old: Option<SvRef<Body>>)
    ensures { WaitsFor waiting.old old waiting.new }
{
    if waiting.is_some() {
        return;
    }
    let Some(old) = old else {
        return;
    };
    *waiting = Some(old.pack);
}

impl Bench {
    /// The state that opens, with the number of its first file.
    pub fn new(alloc: Global, next: u64) -> Result<Bench, Refusal> {
        if next == 0 {
            return Err(Refusal::RegisterFull);
        }
        let state = State::new(alloc, FileNumber(next))?;
        Ok(Bench {
            state,
            waiting: None,
        })
    }

    pub fn create(&mut self, lane: u8, name: &[u8]) -> Result<FamilyId, Refusal> {
        let name = named(name)?;
        if lane >= LANES {
            return Err(Refusal::NoHold);
        }
        let install = self.state.create(lane, &name)?;
        Ok(install.family)
    }

    pub fn find(&self, lane: u8, name: &[u8]) -> Result<FamilyId, Refusal> {
        let name = named(name)?;
        if lane >= LANES {
            return Err(Refusal::NoHold);
        }
        self.state.find(lane, &name)
    }

    pub fn open(&mut self, lane: u8, name: &[u8]) -> Result<FamilyId, Refusal> {
        let name = named(name)?;
        if lane >= LANES {
            return Err(Refusal::NoHold);
        }
        self.state.open_family(lane, &name)
    }

    pub fn drop(&mut self, lane: u8, name: &[u8]) -> Result<FamilyId, Refusal> {
        let name = named(name)?;
        if lane >= LANES {
            return Err(Refusal::NoHold);
        }
        self.state.drop_family(lane, &name)
    }

    /// Sets an option, and tells the new current. The one before waits, unless one waits already.
    pub fn set(
        &mut self,
        lane: u8,
        name: &[u8],
        option: OptionName,
        value: u64,
    ) -> Result<Pack, Refusal> {
        let name = named(name)?;
        if lane >= LANES {
            return Err(Refusal::NoHold);
        }
        let install = self.state.set_option(lane, &name, option, value)?;
        let new = install.new;
        put_by(&mut self.waiting, install.old);
        Ok(new)
    }

    /// Cleans up the SuperVersion that waits. Tells how many memtables went with it, or none where none waits.
    pub fn clean(&mut self) -> Option<usize> {
        let Some(pack) = self.waiting else {
            return None;
        };
        self.waiting = None;
        let cells = self.state.cleanup(pack);
        Some(cells.len())
    }
}
