// The numbers of the report.
ghost use Rattle.std.specs.Prelude.{◌≡◌, ◌<◌, ℕ, [], Some, IfOk, cond, length, slice_get};
ghost use Rattle.sv_model.specs.declared.records.Family.{Family};
ghost use Rattle.sv_model.specs.declared.records.Top.{Top};
ghost use Rattle.sv_model.specs.Books.{files_of};
ghost use Rattle.sv_model.specs.Named.{numbers_of};
ghost use Rattle.sv_model.specs.Summaries.{family_line, family_lines, gone_of, made_of, summary_of};

use crate::state::State;
use std::alloc::Global;
use sv_model::{
    End, FamilyId, FamilyLine, FileMeta, FileNumber, Items, OutOfMemory, Summary, Totals,
};

impl State {
    /// The numbers of the report, after a close that ended so.
    pub fn summary(&self, end: End) -> Result<Summary, OutOfMemory>
        ensures { IfOk result (λ summary. summary ≡ summary_of end self.now.books) }
    {
        let families = self.family_lines()?;
        self.objects.files.laws();
        let left = self.objects.files.obsolete()?;
        Ok(Summary {
            families,
            made: self.made(),
            gone: self.gone(),
            strays_seen: self.objects.files.strays_seen(),
            strays_gone: self.objects.files.strays_gone(),
            end,
            left: Items::from_vec(left),
        })
    }

    fn made(&self) -> Totals
        ensures { result ≡ made_of self.now.books }
    {
        Totals {
            superversions: self.objects.supers.made(),
            memtables: self.objects.memtables.made(),
            files: self.objects.files.made(),
        }
    }

    fn gone(&self) -> Totals
        ensures { result ≡ gone_of self.now.books }
    {
        Totals {
            superversions: self.objects.supers.gone(),
            memtables: self.objects.memtables.gone(),
            files: self.objects.files.gone(),
        }
    }

    // The line of each family, by id.
    fn family_lines(&self) -> Result<Items<FamilyLine>, OutOfMemory>
        ensures { IfOk result (λ lines. lines ≡ family_lines self.now.books.journal self.now.books.versions 0 self.now.books.families self.now.books.tops) }
    {
        let mut lines = Vec::new(self.alloc);
        for index in 0..self.families.len() {
            let line = self.family_line(FamilyId(index as u8))?;
            lines.push(line)?;
        }
        Ok(Items::from_vec(lines))
    }

    fn family_line(&self, family: FamilyId) -> Result<FamilyLine, OutOfMemory>
        requires { family < length self.now.books.families }
        ensures { IfOk result (λ line. (it : Family) (top : Top) → slice_get self.now.books.families family ≡ Some it → slice_get self.now.books.tops family ≡ Some top → line ≡ family_line self.now.books.journal self.now.books.versions family it top) }
    {
        let name = self.families.name(family).clone()?;
        let files = self.shown_files(family)?;
        Ok(FamilyLine {
            id: family,
            name,
            dropped: self.families.is_dropped(family),
            writes: self.journal.written(family),
            files,
        })
    }

    // The numbers of the files of the family's last Version; none where it is dropped.
    fn shown_files(&self, family: FamilyId) -> Result<Items<FileNumber>, OutOfMemory>
        requires { family < length self.now.books.families }
        ensures { IfOk result (λ files. (it : Family) (top : Top) → slice_get self.now.books.families family ≡ Some it → slice_get self.now.books.tops family ≡ Some top → files ≡ cond it.dropped [] (numbers_of (files_of self.now.books.versions top.last))) }
    {
        if self.families.is_dropped(family) {
            return Ok(Items::from_vec(Vec::new(self.alloc)));
        }
        file_numbers(self.alloc, self.last_files(family))
    }
}

fn file_numbers(alloc: Global, files: &[FileMeta]) -> Result<Items<FileNumber>, OutOfMemory>
    ensures { IfOk result (λ numbers. numbers ≡ numbers_of files.now) }
{
    let numbers = files.iter().map(|file| file.number).collect(alloc)?;
    Ok(Items::from_vec(numbers))
}
