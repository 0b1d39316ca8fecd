// What a plain state answers to the calls of the bench.
use crate::plain::{File, Plain};
use sv_model::{FamilyLine, FileNumber, OutOfMemory, Refusal, Summary, Totals};
use sv_state_bench::{Answer, Call, Deed};

fn count_answer(number: Option<usize>) -> Answer {
    let Some(number) = number else {
        return Answer::Nothing;
    };
    Answer::Count(number as u64)
}

fn family_answer(id: usize) -> Answer {
    if id >= 16 {
        return Answer::Nothing;
    }
    Answer::Family(id as u8)
}

fn file_answer(file: File) -> Answer {
    Answer::File(file.number as u64, file.from as u64, file.to as u64)
}

fn numbers_answer(found: &[u64]) -> Answer {
    if found.len() > 4 {
        return Answer::Nothing;
    }
    let mut told = [0; 4];
    for (place, number) in found.iter().enumerate() {
        told[place] = *number;
    }
    Answer::Numbers(told)
}

// Whether just these numbers are told.
fn is_told(told: &[FileNumber], numbers: &[u64]) -> bool {
    if told.len() != numbers.len() {
        return false;
    }
    for (number, wanted) in told.iter().zip(numbers) {
        if number.0 != *wanted {
            return false;
        }
    }
    true
}

// Whether just these files are shown.
fn is_shown(told: &[FileNumber], files: &[File]) -> bool {
    if told.len() != files.len() {
        return false;
    }
    for (number, file) in told.iter().zip(files) {
        if number.0 != file.number as u64 {
            return false;
        }
    }
    true
}

impl Plain {
    pub fn answer(&mut self, call: Call) -> Answer {
        match self.call(call) {
            Ok(answer) => answer,
            Err(refusal) => Answer::Refused(refusal),
        }
    }

    fn call(&mut self, call: Call) -> Result<Answer, Refusal> {
        Ok(match call {
            Call::By(lane, name, deed) => self.deed(lane, name, deed)?,
            Call::End(place) => match self.end(place)? {
                Some(family) => self.current(family),
                None => Answer::Nothing,
            },
            Call::GiveUp(place) => count_answer(self.give_up(place)),
            Call::Keep(keeps) => {
                self.keeps = keeps;
                Answer::Done
            }
            Call::Clean(place) => count_answer(self.clean_at(place)?),
            Call::Hold(lane) => Answer::Count(self.hold(lane)?),
            Call::Unhold(lane) => Answer::Count(self.unhold(lane)?),
            Call::Live(lane) => numbers_answer(self.live(lane)?.as_slice()),
            Call::Purge(fails) => numbers_answer(self.purge(fails)?.as_slice()),
            Call::Snap => count_answer(Some(self.snap()?)),
            Call::Unsnap(id) => {
                self.unsnap(id)?;
                Answer::Done
            }
            _ => self.tell(call)?,
        })
    }

    fn tell(&self, call: Call) -> Result<Answer, Refusal> {
        Ok(match call {
            Call::Cut(id, family) => count_answer(Some(self.cut_at(id, family as usize)?)),
            Call::Cuts(place) => count_answer(self.cuts_at(place)),
            Call::Current(family) => self.current(family as usize),
            Call::Options(family) => self.options(family as usize),
            Call::Last(family) => numbers_answer(self.last(family as usize)?.as_slice()),
            Call::Next => Answer::Count((self.stages.len() as u64).saturating_add(1)),
            Call::Holds => Answer::Count(self.held()),
            _ => Answer::Nothing,
        })
    }

    fn deed(&mut self, lane: u8, name: &'static str, deed: Deed) -> Result<Answer, Refusal> {
        Ok(match deed {
            Deed::Create => family_answer(self.create(lane, name)?),
            Deed::Find => family_answer(self.find(lane, name)?),
            Deed::Open => family_answer(self.open(lane, name)?),
            Deed::Drop => family_answer(self.drop(lane, name)?),
            Deed::Release => match self.release(lane, name)? {
                Some(id) => family_answer(id),
                None => Answer::Done,
            },
            Deed::Set(option, value) => {
                let id = self.set(lane, name, option, value)?;
                self.current(id)
            }
            Deed::Put(_) => count_answer(Some(self.put(lane, name)?)),
            Deed::BeginFlush => file_answer(self.begin_flush(lane, name)?),
            Deed::BeginCompaction => file_answer(self.begin_compaction(lane, name)?),
            Deed::Flush => {
                let place = self.outputs.len();
                let made = self.begin_flush(lane, name)?;
                self.end(place)?;
                file_answer(made)
            }
            Deed::Compact => {
                let place = self.outputs.len();
                let made = self.begin_compaction(lane, name)?;
                self.end(place)?;
                file_answer(made)
            }
        })
    }

    // The family's current, by its serial and its place.
    fn current(&self, family: usize) -> Answer {
        if family >= self.families.len() {
            return Answer::Nothing;
        }
        let Some(index) = self.families[family].current else {
            return Answer::Nothing;
        };
        if index >= self.supers.len() || index >= 1_048_576 {
            return Answer::Nothing;
        }
        Answer::Super(index as u32 + 1, self.supers[index].place)
    }

    fn options(&self, family: usize) -> Answer {
        if family >= self.families.len() || self.families[family].dropped {
            return Answer::Nothing;
        }
        let (rows, most) = (self.families[family].rows, self.families[family].most);
        if rows > 65536 || most > 8 {
            return Answer::Nothing;
        }
        Answer::Options(rows as u32, most as u8)
    }

    fn last(&self, family: usize) -> Result<Vec<u64>, OutOfMemory> {
        let mut numbers = Vec::new(self.alloc);
        if family >= self.families.len() || self.families[family].dropped {
            return Ok(numbers);
        }
        for file in &self.families[family].last {
            numbers.push(file.number as u64)?;
        }
        Ok(numbers)
    }

    // How many memtables go with the SuperVersion that waits at this place.
    fn clean_at(&mut self, place: usize) -> Result<Option<usize>, OutOfMemory> {
        if place >= self.waiting.len() {
            return Ok(None);
        }
        let Some(serial) = self.waiting[place] else {
            return Ok(None);
        };
        self.waiting[place] = None;
        let before = self.live_memtables()?;
        self.clean(serial);
        let after = self.live_memtables()?;
        Ok(Some(before.saturating_sub(after)))
    }

    /// Whether the summary has the numbers of this state.
    pub fn agrees(&self, summary: &Summary) -> Result<bool, OutOfMemory> {
        let lines = summary.families.as_slice();
        if lines.len() != self.families.len() {
            return Ok(false);
        }
        for (index, line) in lines.iter().enumerate() {
            if !self.agrees_on(index, line) {
                return Ok(false);
            }
        }
        let left = self.obsolete()?;
        Ok(
            is_told(summary.left.as_slice(), left.as_slice())
                && self.agrees_on_made(summary.made)
                && self.agrees_on_gone(summary.gone)?,
        )
    }

    fn agrees_on(&self, index: usize, line: &FamilyLine) -> bool {
        if index >= self.families.len() {
            return false;
        }
        let family = &self.families[index];
        line.dropped == family.dropped
            && line.name.as_bytes() == family.name.as_bytes()
            && line.writes == self.written(index) as u64
            && (family.dropped || is_shown(line.files.as_slice(), family.last.as_slice()))
    }

    fn agrees_on_made(&self, made: Totals) -> bool {
        made.superversions == self.supers.len() as u64
            && made.memtables == self.firsts.len() as u64
            && made.files == self.stages.len() as u64
    }

    fn agrees_on_gone(&self, gone: Totals) -> Result<bool, OutOfMemory> {
        let memtables = self.firsts.len().saturating_sub(self.live_memtables()?);
        let supers = self.supers.len().saturating_sub(self.live_supers());
        Ok(
            gone.superversions == supers as u64
                && gone.memtables == memtables as u64
                && gone.files == self.gone_files() as u64,
        )
    }
}
