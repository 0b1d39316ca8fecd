// Calls of the bench and their answers, for tables.
ghost use Rattle.std.specs.Prelude.{◌<◌};

use crate::bench::Bench;
use crate::outputs::Told;
use sv_model::{FamilyId, FileNumber, Items, Name, OptionName, Options, Pack, Refusal, Totals};

/// What a lane does with the family of a name.
#[derive(Clone, Copy, Debug)]
pub enum Deed {
    Create,
    Find,
    Open,
    Drop,
    Release,
    Set(OptionName, u64),
    /// Puts this key.
    Put(&'static str),
    BeginFlush,
    Flush,
    BeginCompaction,
    Compact,
}

#[derive(Clone, Copy, Debug)]
pub enum Call {
    /// The lane, the name, and what is done.
    By(u8, &'static str, Deed),
    /// The output at this place, in the order in which they began.
    End(usize),
    GiveUp(usize),
    Keep(bool),
    /// The SuperVersion that waits at this place.
    Clean(usize),
    /// Of a lane.
    Hold(u8),
    Unhold(u8),
    Live(u8),
    /// The removal of the file of this number fails.
    Purge(u64),
    Snap,
    Unsnap(u64),
    /// Where the snapshot of this number reads the family of this id.
    Cut(u64, u8),
    /// How many cuts the output at this place keeps.
    Cuts(usize),
    /// Of a family.
    Current(u8),
    Files(u8),
    Last(u8),
    Options(u8),
    /// Whether this family has the name.
    Named(u8, &'static str),
    Next,
    Holds,
    Made,
    Gone,
    Left,
}

#[derive(Clone, Copy, Debug, PartialEq, Eq)]
pub enum Answer {
    Done,
    /// None is there, or the call is none of the bench.
    Nothing,
    Count(u64),
    Family(u8),
    /// The number of a file, and its range.
    File(u64, u64, u64),
    /// A SuperVersion, by its serial and its place.
    Super(u32, u8),
    /// File numbers, 0 after the last.
    Numbers([u64; 4]),
    /// The rows of a memtable, and how many immutable ones there may be.
    Options(u32, u8),
    /// SuperVersions, memtables and files.
    Totals(u64, u64, u64),
    Refused(Refusal),
}

fn file_answer(file: Told) -> Answer {
    Answer::File(file.0, file.1, file.2)
}

fn super_answer(pack: Option<Pack>) -> Answer {
    let Some(pack) = pack else {
        return Answer::Nothing;
    };
    Answer::Super(pack.serial.0, pack.place)
}

fn family_answer(family: Option<FamilyId>) -> Answer {
    let Some(family) = family else {
        return Answer::Done;
    };
    Answer::Family(family.0)
}

// The numbers, of which there are to be at most four.
fn numbers_answer(numbers: &[FileNumber]) -> Answer {
    if numbers.len() > 4 {
        return Answer::Nothing;
    }
    let mut told = [0; 4];
    for (place, number) in numbers.iter().enumerate() {
        told[place] = number.0;
    }
    Answer::Numbers(told)
}

fn count_answer(count: Option<u64>) -> Answer {
    let Some(count) = count else {
        return Answer::Nothing;
    };
    Answer::Count(count)
}

fn options_answer(options: Option<Options>) -> Answer {
    let Some(options) = options else {
        return Answer::Nothing;
    };
    Answer::Options(options.memtable_rows, options.max_immutable)
}

fn named_answer(named: bool) -> Answer {
    if named {
        return Answer::Done;
    }
    Answer::Nothing
}

fn totals_answer(totals: Totals) -> Answer {
    Answer::Totals(totals.superversions, totals.memtables, totals.files)
}

impl Bench {
    fn deed(&mut self, lane: u8, name: &Name, deed: Deed) -> Result<Answer, Refusal>
        requires { lane < 32 }
    {
        Ok(match deed {
            Deed::Create => family_answer(Some(self.create(lane, name)?)),
            Deed::Find => family_answer(Some(self.find(lane, name)?)),
            Deed::Open => family_answer(Some(self.open(lane, name)?)),
            Deed::Drop => family_answer(Some(self.drop(lane, name)?)),
            Deed::Release => family_answer(self.release(lane, name)?),
            Deed::Set(option, value) => { super_answer(Some(self.set(lane, name, option, value)?)) }
            Deed::Put(key) => Answer::Count(self.put(lane, name, key)?),
            Deed::BeginFlush => file_answer(self.begin_flush(lane, name)?),
            Deed::Flush => file_answer(self.flush(lane, name)?),
            Deed::BeginCompaction => file_answer(self.begin_compaction(lane, name)?),
            Deed::Compact => file_answer(self.compact(lane, name)?),
        })
    }

    fn call(&mut self, call: Call) -> Result<Answer, Refusal> {
        Ok(match call {
            Call::By(lane, name, deed) => self.by(lane, name, deed)?,
            Call::End(place) => super_answer(self.end(place)?),
            Call::GiveUp(place) => count_answer(self.give_up(place)),
            Call::Keep(keeps) => self.kept(keeps),
            Call::Clean(place) => count_answer(self.clean(place)),
            Call::Hold(lane) => self.held(lane)?,
            Call::Unhold(lane) => self.unheld(lane)?,
            Call::Live(lane) => self.lives(lane)?,
            Call::Purge(fails) => numbers_answer(self.purge(fails)?.as_slice()),
            Call::Snap => Answer::Count(self.snap()?.into()),
            Call::Unsnap(id) => self.unsnapped(id)?,
            _ => self.tell(call)?,
        })
    }

    // What a call that changes nothing is answered.
    fn tell(&self, call: Call) -> Result<Answer, Refusal> {
        Ok(match call {
            Call::Cut(id, family) => self.cut(id, family)?,
            Call::Cuts(place) => count_answer(self.cuts(place)),
            Call::Current(family) => super_answer(self.current(FamilyId(family))),
            Call::Files(family) => self.files(family)?,
            Call::Last(family) => numbers_answer(self.last(FamilyId(family))?.as_slice()),
            Call::Options(family) => options_answer(self.options(FamilyId(family))),
            Call::Named(family, name) => named_answer(self.is_named(FamilyId(family), name)),
            Call::Next => Answer::Count(self.next()),
            Call::Holds => Answer::Count(self.holds().into()),
            Call::Made => totals_answer(self.summary()?.made),
            Call::Gone => totals_answer(self.summary()?.gone),
            Call::Left => numbers_answer(self.summary()?.left.as_slice()),
            _ => Answer::Nothing,
        })
    }

    fn by(&mut self, lane: u8, name: &str, deed: Deed) -> Result<Answer, Refusal> {
        let Some(name) = Name::new(name.as_bytes()) else {
            return Ok(Answer::Nothing);
        };
        if lane >= 32 {
            return Ok(Answer::Nothing);
        }
        self.deed(lane, &name, deed)
    }

    fn kept(&mut self, keeps: bool) -> Answer {
        self.keep(keeps);
        Answer::Done
    }

    fn held(&mut self, lane: u8) -> Result<Answer, Refusal> {
        if lane >= 32 {
            return Ok(Answer::Nothing);
        }
        Ok(Answer::Count(self.hold(lane)?.into()))
    }

    fn unheld(&mut self, lane: u8) -> Result<Answer, Refusal> {
        if lane >= 32 {
            return Ok(Answer::Nothing);
        }
        Ok(Answer::Count(self.unhold(lane)?.into()))
    }

    fn lives(&mut self, lane: u8) -> Result<Answer, Refusal> {
        if lane >= 32 {
            return Ok(Answer::Nothing);
        }
        Ok(numbers_answer(self.live(lane)?.as_slice()))
    }

    fn unsnapped(&mut self, id: u64) -> Result<Answer, Refusal> {
        self.unsnap(id)?;
        Ok(Answer::Done)
    }

    fn cut(&self, id: u64, family: u8) -> Result<Answer, Refusal> {
        if family >= 16 {
            return Ok(Answer::Nothing);
        }
        Ok(Answer::Count(self.cut_at(id, FamilyId(family))?))
    }

    // The files of the family's line.
    fn files(&self, family: u8) -> Result<Answer, Refusal> {
        let summary = self.summary()?;
        let Some(line) = summary.families.as_slice().get(family as usize) else {
            return Ok(Answer::Nothing);
        };
        Ok(numbers_answer(line.files.as_slice()))
    }

    pub fn answer(&mut self, call: Call) -> Answer {
        match self.call(call) {
            Ok(answer) => answer,
            Err(refusal) => Answer::Refused(refusal),
        }
    }
}
