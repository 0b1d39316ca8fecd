// Families of a plain state.
use crate::plain::Plain;
use sv_model::{OptionName, Refusal};

impl Plain {
    // The family of the lane's handle of the name.
    fn own(&self, lane: u8, name: &str) -> Option<usize> {
        for (index, family) in self.families.iter().enumerate() {
            let handles = family.handles.as_slice();
            let held = handles.get(lane as usize).copied().unwrap_or(false);
            if family.name == name && held {
                return Some(index);
            }
        }
        None
    }

    // The family that has the name and is not dropped.
    fn standing(&self, name: &str) -> Option<usize> {
        for (index, family) in self.families.iter().enumerate() {
            if family.name == name && !family.dropped {
                return Some(index);
            }
        }
        None
    }

    pub fn find(&self, lane: u8, name: &str) -> Result<usize, Refusal> {
        if let Some(family) = self.own(lane, name) {
            return Ok(family);
        }
        if self.standing(name).is_some() {
            return Err(Refusal::NotOpen);
        }
        Err(Refusal::NoFamily)
    }

    pub fn find_standing(&self, lane: u8, name: &str) -> Result<usize, Refusal> {
        let family = self.find(lane, name)?;
        if family < self.families.len() && self.families[family].dropped {
            return Err(Refusal::Dropped);
        }
        Ok(family)
    }

    pub fn create(&mut self, lane: u8, name: &'static str) -> Result<usize, Refusal> {
        if self.standing(name).is_some() {
            return Err(Refusal::NameTaken);
        }
        if self.own(lane, name).is_some() {
            return Err(Refusal::AlreadyOpen);
        }
        let family = self.families.len();
        if family >= 16 {
            return Err(Refusal::TooManyFamilies);
        }
        self.due_memtable()?;
        self.due_super()?;
        let Ok(handles) = vec![in self.alloc; false; 32] else {
            return Err(Refusal::OutOfMemory);
        };
        self.add_family(name, handles)?;
        self.set_handle(family, lane, true);
        Ok(family)
    }

    fn set_handle(&mut self, family: usize, lane: u8, held: bool) {
        if family >= self.families.len() {
            return;
        }
        let handles = &mut self.families[family].handles;
        if (lane as usize) < handles.len() {
            handles[lane as usize] = held;
        }
    }

    pub fn open(&mut self, lane: u8, name: &str) -> Result<usize, Refusal> {
        if self.own(lane, name).is_some() {
            return Err(Refusal::AlreadyOpen);
        }
        let Some(family) = self.standing(name) else {
            return Err(Refusal::NoFamily);
        };
        self.set_handle(family, lane, true);
        Ok(family)
    }

    pub fn drop(&mut self, lane: u8, name: &str) -> Result<usize, Refusal> {
        if name == "default" {
            return Err(Refusal::IsDefault);
        }
        let family = self.find_standing(lane, name)?;
        if family < self.families.len() {
            self.families[family].dropped = true;
        }
        Ok(family)
    }

    /// The family, where it is retired by it.
    pub fn release(&mut self, lane: u8, name: &str) -> Result<Option<usize>, Refusal> {
        if name == "default" {
            return Err(Refusal::IsDefault);
        }
        let family = self.find(lane, name)?;
        self.set_handle(family, lane, false);
        if family >= self.families.len() || !self.is_retired(family) {
            return Ok(None);
        }
        let old = self.families[family].current;
        self.families[family].current = None;
        if self.waiting.push(old).is_err() {
            return Err(Refusal::OutOfMemory);
        }
        self.settle();
        Ok(Some(family))
    }

    /// Tells the family, which has a new current.
    pub fn set(
        &mut self,
        lane: u8,
        name: &str,
        option: OptionName,
        value: u64,
    ) -> Result<usize, Refusal> {
        let greatest = match option {
            OptionName::MemtableRows => 65536,
            OptionName::MaxImmutable => 8,
        };
        if value < 1 || value > greatest {
            return Err(Refusal::BadOption {
                value,
                least: 1,
                greatest,
            });
        }
        let index = self.find_standing(lane, name)?;
        self.due_super()?;
        if let Some(made) = self.copy_current(index)? {
            self.install(made)?;
        }
        if index < self.families.len() {
            match option {
                OptionName::MemtableRows => self.families[index].rows = value,
                OptionName::MaxImmutable => self.families[index].most = value,
            }
        }
        self.settle();
        Ok(index)
    }
}
