// A plain, slow state: each register is a vector, and what is named is counted afresh.
use std::alloc::Global;
use sv_model::OutOfMemory;

/// A file of this number, which is at least 1.
#[derive(Clone, Copy)]
pub struct File {
    pub number: usize,
    pub from: usize,
    pub to: usize,
    pub last: bool,
}

/// What became of a file number.
#[derive(Clone, Copy, PartialEq, Eq)]
pub enum Stage {
    UnderWay,
    Written,
    Failed,
    Gone,
}

#[derive(Drop)]
pub struct Super {
    pub family: usize,
    pub active: usize,
    pub members: Vec<usize>,
    pub files: Vec<File>,
    pub base: usize,
    pub place: u8,
    pub live: bool,
}

#[derive(Drop)]
pub struct Family {
    pub name: &'static str,
    pub dropped: bool,
    /// By lane, whether it has a handle.
    pub handles: Vec<bool>,
    pub current: Option<usize>,
    pub last: Vec<File>,
    pub rows: u64,
    pub most: u64,
    pub busy: Option<usize>,
}

#[derive(Drop)]
pub struct Plain {
    pub alloc: Global,
    /// The family of each write.
    pub writes: Vec<usize>,
    /// The place of each snapshot, and whether it is Live.
    pub snapshots: Vec<(usize, bool)>,
    pub supers: Vec<Super>,
    /// By memtable, how many writes its family had when it was made.
    pub firsts: Vec<usize>,
    /// By file number, from 1 on.
    pub stages: Vec<Stage>,
    /// The numbers of files with the cuts that they keep.
    pub cuts: Vec<(usize, usize)>,
    pub families: Vec<Family>,
    /// By lane.
    pub holds: Vec<u64>,
    pub outputs: Vec<Option<(usize, File)>>,
    pub waiting: Vec<Option<usize>>,
    pub keeps: bool,
}

impl Plain {
    pub fn new(alloc: Global) -> Result<Plain, OutOfMemory> {
        let mut plain = Plain {
            alloc,
            writes: Vec::new(alloc),
            snapshots: Vec::new(alloc),
            supers: Vec::new(alloc),
            firsts: Vec::new(alloc),
            stages: Vec::new(alloc),
            cuts: Vec::new(alloc),
            families: Vec::new(alloc),
            holds: vec![in alloc; 0; 32]?,
            outputs: Vec::new(alloc),
            waiting: Vec::new(alloc),
            keeps: false,
        };
        let handles = vec![in alloc; true; 32]?;
        plain.add_family("default", handles)?;
        Ok(plain)
    }

    /// A family with its first memtable and SuperVersion.
    pub fn add_family(
        &mut self,
        name: &'static str,
        handles: Vec<bool>,
    ) -> Result<(), OutOfMemory> {
        let family = self.families.len();
        let made = Super {
            family,
            active: self.firsts.len(),
            members: Vec::new(self.alloc),
            files: Vec::new(self.alloc),
            base: 0,
            place: self.free_place(),
            live: true,
        };
        self.families.push(Family {
            name,
            dropped: false,
            handles,
            current: Some(self.supers.len()),
            last: Vec::new(self.alloc),
            rows: 1024,
            most: 2,
            busy: None,
        })?;
        self.firsts.push(0)?;
        self.supers.push(made)?;
        Ok(())
    }

    // The least place that no Live SuperVersion has.
    fn free_place(&self) -> u8 {
        for place in 0..=255 {
            if !self.supers.iter().any(|it| it.live && it.place == place) {
                return place;
            }
        }
        0
    }

    /// The SuperVersion becomes its family's current, at a free place. The one before waits.
    pub fn install(&mut self, mut made: Super) -> Result<(), OutOfMemory> {
        made.place = self.free_place();
        let serial = self.supers.len();
        let files = made.files.clone()?;
        let index = made.family;
        self.supers.push(made)?;
        if index >= self.families.len() {
            return Ok(());
        }
        let family = &mut self.families[index];
        let old = family.current;
        family.current = Some(serial);
        family.last = files;
        self.waiting.push(old)?;
        Ok(())
    }

    /// A copy of the family's current SuperVersion.
    pub fn copy_current(&self, family: usize) -> Result<Option<Super>, OutOfMemory> {
        if family >= self.families.len() {
            return Ok(None);
        }
        let Some(serial) = self.families[family].current else {
            return Ok(None);
        };
        if serial >= self.supers.len() {
            return Ok(None);
        }
        let it = &self.supers[serial];
        Ok(Some(Super {
            family,
            active: it.active,
            members: it.members.clone()?,
            files: it.files.clone()?,
            base: it.base,
            place: it.place,
            live: true,
        }))
    }

    /// Cleans up the SuperVersion that waits since last, unless such wait for now.
    pub fn settle(&mut self) {
        if self.keeps {
            return;
        }
        if let Some(Some(serial)) = self.waiting.pop() {
            self.clean(serial);
        }
    }

    pub fn clean(&mut self, serial: usize) {
        if serial < self.supers.len() {
            self.supers[serial].live = false;
        }
    }
}
