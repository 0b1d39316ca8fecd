// Flushes and compactions of a plain state.
use crate::plain::{File, Plain, Stage, Super};
use sv_model::{OutOfMemory, Refusal};

// Where the last of the files ends.
fn reach(files: &[File]) -> usize {
    let Some(file) = files.last() else {
        return 0;
    };
    file.to
}

impl Plain {
    // Where the Live snapshots read the family between these writes.
    fn live_cuts(&self, family: usize, from: usize, to: usize) -> Result<Vec<usize>, OutOfMemory> {
        let mut cuts = Vec::new(self.alloc);
        for (at, live) in &self.snapshots {
            let cut = self.written_of(family, *at);
            if *live && from < cut && cut < to && !cuts.iter().any(|known| *known == cut) {
                cuts.push(cut)?;
            }
        }
        Ok(cuts)
    }

    fn is_live_cut(&self, family: usize, cut: usize) -> bool {
        for (at, live) in &self.snapshots {
            if *live && self.written_of(family, *at) == cut {
                return true;
            }
        }
        false
    }

    fn due_output(&self, family: usize) -> Result<(), Refusal> {
        if family >= self.families.len() {
            return Ok(());
        }
        match self.families[family].busy {
            Some(number) => {
                Err(Refusal::Busy {
                    number: number as u64,
                })
            }
            None => Ok(()),
        }
    }

    fn capture(
        &mut self,
        family: usize,
        from: usize,
        to: usize,
        last: bool,
    ) -> Result<File, OutOfMemory> {
        let cuts = self.live_cuts(family, from, to)?;
        self.stages.push(Stage::UnderWay)?;
        let number = self.stages.len();
        for cut in &cuts {
            self.cuts.push((number, *cut))?;
        }
        if family < self.families.len() {
            self.families[family].busy = Some(number);
        }
        let file = File {
            number,
            from,
            to,
            last,
        };
        self.outputs.push(Some((family, file)))?;
        Ok(file)
    }

    // What a flush of the family is to cover.
    fn flush_range(&self, family: usize) -> Result<(usize, usize), OutOfMemory> {
        let Some(it) = self.copy_current(family)? else {
            return Ok((0, 0));
        };
        Ok((reach(it.files.as_slice()), it.base))
    }

    pub fn begin_flush(&mut self, lane: u8, name: &str) -> Result<File, Refusal> {
        let family = self.find_standing(lane, name)?;
        self.due_output(family)?;
        let (rows, members) = self.active_rows(family)?;
        if rows == 0 && members == 0 {
            return Err(Refusal::NothingToFlush);
        }
        if rows > 0 {
            self.due_memtable()?;
            self.due_super()?;
            self.switch(family)?;
            self.settle();
        }
        let (from, to) = self.flush_range(family)?;
        Ok(self.capture(family, from, to, false)?)
    }

    // Whether a compaction of these files would change nothing.
    fn compacts_nothing(&self, family: usize, files: &[File]) -> bool {
        let Some(file) = files.first() else {
            return true;
        };
        if files.len() > 1 || !file.last {
            return false;
        }
        for (number, cut) in &self.cuts {
            if *number == file.number && !self.is_live_cut(family, *cut) {
                return false;
            }
        }
        true
    }

    pub fn begin_compaction(&mut self, lane: u8, name: &str) -> Result<File, Refusal> {
        let family = self.find_standing(lane, name)?;
        self.due_output(family)?;
        let Some(it) = self.copy_current(family)? else {
            return Err(Refusal::NothingToCompact);
        };
        if self.compacts_nothing(family, it.files.as_slice()) {
            return Err(Refusal::NothingToCompact);
        }
        Ok(self.capture(family, 0, reach(it.files.as_slice()), true)?)
    }

    pub fn set_stage(&mut self, number: usize, stage: Stage) {
        if 0 < number && number <= self.stages.len() {
            self.stages[number - 1] = stage;
        }
    }

    // Takes the output from this place.
    fn take_output(&mut self, place: usize) -> Option<(usize, File)> {
        if place >= self.outputs.len() {
            return None;
        }
        let (family, file) = self.outputs[place]?;
        self.outputs[place] = None;
        if family < self.families.len() {
            self.families[family].busy = None;
        }
        Some((family, file))
    }

    /// The family, which has a new current.
    pub fn end(&mut self, place: usize) -> Result<Option<usize>, Refusal> {
        let Some((family, file)) = self.take_output(place) else {
            return Ok(None);
        };
        match self.due_end(family) {
            Ok(()) => {}
            Err(refusal) => {
                self.set_stage(file.number, Stage::Failed);
                return Err(refusal);
            }
        }
        self.set_stage(file.number, Stage::Written);
        if let Some(made) = self.ended(family, file)? {
            self.install(made)?;
        }
        self.settle();
        Ok(Some(family))
    }

    fn due_end(&self, family: usize) -> Result<(), Refusal> {
        if family < self.families.len() && self.families[family].dropped {
            return Err(Refusal::Dropped);
        }
        self.due_super()
    }

    // The family's current with the file.
    fn ended(&self, family: usize, file: File) -> Result<Option<Super>, OutOfMemory> {
        let Some(mut made) = self.copy_current(family)? else {
            return Ok(None);
        };
        if file.last {
            made.files = Vec::new(self.alloc);
        } else {
            made.members = self.above(made.members.as_slice(), file.to)?;
        }
        made.files.push(file)?;
        Ok(Some(made))
    }

    // The memtables that do not begin before the write.
    fn above(&self, members: &[usize], to: usize) -> Result<Vec<usize>, OutOfMemory> {
        let mut kept = Vec::new(self.alloc);
        for member in members {
            if *member < self.firsts.len() && self.firsts[*member] >= to {
                kept.push(*member)?;
            }
        }
        Ok(kept)
    }

    pub fn give_up(&mut self, place: usize) -> Option<usize> {
        let (_, file) = self.take_output(place)?;
        self.set_stage(file.number, Stage::Failed);
        Some(file.number)
    }

    pub fn cuts_at(&self, place: usize) -> Option<usize> {
        if place >= self.outputs.len() {
            return None;
        }
        let (_, file) = self.outputs[place]?;
        let kept = self.cuts.iter().filter(|kept| kept.0 == file.number);
        Some(kept.count())
    }
}
