// What the bench tells of its state.
use crate::bench::Bench;
use sv_model::{End, FamilyId, FileNumber, Options, OutOfMemory, Pack, Summary};

impl Bench {
    /// The pack of the family's current.
    pub fn current(&self, family: FamilyId) -> Option<Pack> {
        if !self.state.has_current(family) {
            return None;
        }
        Some(self.state.current(family).pack)
    }

    pub fn summary(&self) -> Result<Summary, OutOfMemory> {
        self.state.summary(End::Clean)
    }

    /// The next file number.
    pub fn next(&self) -> u64 {
        self.state.next().0
    }

    /// How many holds stand, over all lanes.
    pub fn holds(&self) -> u32 {
        self.state.holds()
    }

    /// The options of the family, where it is not dropped.
    pub fn options(&self, family: FamilyId) -> Option<Options> {
        let (_, options) = self.state.kept(family)?;
        Some(options)
    }

    /// Whether the family is not dropped and has this name.
    pub fn is_named(&self, family: FamilyId, name: &str) -> bool {
        let Some((kept, _)) = self.state.kept(family) else {
            return false;
        };
        kept.as_bytes() == name.as_bytes()
    }

    /// The numbers of the files of the family's last Version, where it is not dropped.
    pub fn last(&self, family: FamilyId) -> Result<Vec<FileNumber>, OutOfMemory> {
        let mut numbers = Vec::new(self.alloc);
        let Some(_) = self.state.kept(family) else {
            return Ok(numbers);
        };
        for file in self.state.last_files(family) {
            numbers.push(file.number)?;
        }
        Ok(numbers)
    }
}
