// The state of a store that was kept.
ghost use Rattle.std.specs.Prelude.{◌≡◌, ◌+◌, ◌≤◌, ◌<◌, ◌++◌, [], IfOk, OnOk, length, map};
ghost use Rattle.sv_model.specs.declared.limits.TheConstants.{MAX_FAMILIES, MAX_WRITES};
ghost use Rattle.sv_model.specs.Openings.{IsOpening};
ghost use Rattle.sv_model.specs.Steady.{Sound};
ghost use Rattle.sv_state.specs.Openings.{MayOpen, numbered, opened_books, opening_files, opening_numbers, opening_write, opening_writes};

use crate::begun::Begun;
use crate::state::State;
use std::alloc::Global;
use sv_family::Families;
use sv_files::FileBook;
use sv_journal::Journal;
use sv_model::{
    FamilyId, FileMeta, FileNumber, MemId, OpenFamily, Opening, OutOfMemory, Row, Write,
};

impl State {
    /// The families of a store that was kept, by id, with their files and the writes that those keep. Each lane has a
    /// handle of `default`, and none of another family; `next` is the number of the next file.
    pub fn from_opening(
        alloc: Global,
        opening: Opening,
        next: FileNumber,
    ) -> Result<State, OutOfMemory>
        requires { MayOpen opening next }
        ensures books { IfOk result (λ state. state.books ≡ opened_books opening.families.items next) }
        ensures opening { IfOk result (λ state. IsOpening state.books) }
        ensures sound { IfOk result (λ state. Sound state.books) }
    {
        let kept = opening.families.as_slice();
        let numbers = numbers_of(alloc, kept)?;
        let files = FileBook::named(alloc, next, numbers.as_slice())?;
        files.laws();
        let families = Families::from_open(alloc, kept)?;
        let begun = Begun::of(alloc, files, kept)?;
        let metas = metas_of(alloc, kept)?;
        let journal = journal_of(alloc, kept)?;
        Ok(State {
            alloc,
            journal,
            objects: begun.objects,
            metas,
            families,
            tops: begun.tops,
            held: begun.held,
        })
    }
}

// The files' numbers with their families.
fn numbers_of(
    alloc: Global,
    kept: &[OpenFamily],
) -> Result<Vec<(FamilyId, FileNumber)>, OutOfMemory>
    requires { length kept.now ≤ MAX_FAMILIES }
    ensures { IfOk result (λ numbers. numbers.items ≡ opening_numbers 0 kept.now) }
{
    let mut numbers = Vec::new(alloc);
    for id in 0..kept.len() {
        push_numbers(&mut numbers, FamilyId(id as u8), kept[id].files.as_slice())?;
    }
    Ok(numbers)
}

fn push_numbers(
    numbers: &mut Vec<(FamilyId, FileNumber)>,
    family: FamilyId,
    files: &[FileMeta],
) -> Result<(), OutOfMemory>
    ensures { OnOk result (numbers.new.items ≡ numbers.old.items ++ map (numbered family) files.now) }
{
    for file in files {
        numbers.push((family, file.number))?;
    }
    Ok(())
}

// The files of all families.
fn metas_of(alloc: Global, kept: &[OpenFamily]) -> Result<Vec<FileMeta>, OutOfMemory>
    ensures { IfOk result (λ metas. metas.items ≡ opening_files kept.now) }
{
    let mut metas = Vec::new(alloc);
    for family in kept {
        metas.extend_from_slice(family.files.as_slice())?;
    }
    Ok(metas)
}

// The writes of all families.
fn journal_of(alloc: Global, kept: &[OpenFamily]) -> Result<Journal, OutOfMemory>
    requires most { length kept.now ≤ MAX_FAMILIES }
    requires few { length (opening_writes 0 kept.now) ≤ MAX_WRITES }
    ensures writes { IfOk result (λ journal. journal.writes ≡ opening_writes 0 kept.now) }
    ensures snapshots { IfOk result (λ journal. journal.snapshots ≡ []) }
{
    let mut journal = Journal::new(alloc);
    for id in 0..kept.len() {
        push_rows(&mut journal, FamilyId(id as u8), kept[id].writes.as_slice())?;
    }
    Ok(journal)
}

fn push_rows(journal: &mut Journal, family: FamilyId, rows: &[Row]) -> Result<(), OutOfMemory>
    requires made { family < MAX_FAMILIES }
    requires few { length journal.old.writes + length rows.now ≤ MAX_WRITES }
    ensures writes { OnOk result (journal.new.writes ≡ journal.old.writes ++ map (opening_write family) rows.now) }
    ensures snapshots { journal.new.snapshots ≡ journal.old.snapshots }
{
    for row in rows {
        let write = write_of(family, row)?;
        journal.reserve()?;
        let _ = journal.push(write);
    }
    Ok(())
}

// The write of a row that was kept: no memtable bears it, and no lane made it.
fn write_of(family: FamilyId, row: &Row) -> Result<Write, OutOfMemory>
    ensures { IfOk result (λ write. write ≡ opening_write family row.now) }
{
    let row = row.clone()?;
    Ok(Write {
        family,
        key: row.key,
        op: row.op,
        mem: MemId(0),
        lane: 255,
    })
}
