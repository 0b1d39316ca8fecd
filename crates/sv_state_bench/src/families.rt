// Families of the bench: their handles and options.
ghost use Rattle.std.specs.Prelude.{◌<◌};

use crate::bench::Bench;
use crate::waits::pack_of;
use sv_memtable::MemCell;
use sv_model::{FamilyId, Name, OptionName, Pack, Refusal};

impl Bench {
    pub fn create(&mut self, lane: u8, name: &Name) -> Result<FamilyId, Refusal>
        requires { lane < 32 }
    {
        let Ok(()) = self.actives.reserve(1) else {
            return Err(Refusal::OutOfMemory);
        };
        let install = self.state.create(lane, name)?;
        let Some((_, mem)) = install.vacant else {
            unreachable!();
        };
        self.actives.push_reserved(MemCell::new(self.alloc, mem));
        Ok(install.family)
    }

    pub fn find(&self, lane: u8, name: &Name) -> Result<FamilyId, Refusal>
        requires { lane < 32 }
    {
        self.state.find(lane, name)
    }

    pub fn open(&mut self, lane: u8, name: &Name) -> Result<FamilyId, Refusal>
        requires { lane < 32 }
    {
        self.state.open_family(lane, name)
    }

    pub fn drop(&mut self, lane: u8, name: &Name) -> Result<FamilyId, Refusal>
        requires { lane < 32 }
    {
        self.state.drop_family(lane, name)
    }

    /// Takes a handle back. Tells the family that is retired by it.
    pub fn release(&mut self, lane: u8, name: &Name) -> Result<Option<FamilyId>, Refusal>
        requires { lane < 32 }
    {
        let Ok(()) = self.waiting.reserve(1) else {
            return Err(Refusal::OutOfMemory);
        };
        let Some(install) = self.state.release(lane, name)? else {
            return Ok(None);
        };
        self.waiting.push_reserved(pack_of(&install.old));
        self.settle();
        Ok(Some(install.family))
    }

    /// Sets an option, and tells the new current.
    pub fn set(
        &mut self,
        lane: u8,
        name: &Name,
        option: OptionName,
        value: u64,
    ) -> Result<Pack, Refusal>
        requires { lane < 32 }
    {
        let Ok(()) = self.waiting.reserve(1) else {
            return Err(Refusal::OutOfMemory);
        };
        let install = self.state.set_option(lane, name, option, value)?;
        self.waiting.push_reserved(pack_of(&install.old));
        self.settle();
        Ok(install.new)
    }
}
