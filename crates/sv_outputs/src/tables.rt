// Reading the tables that files hold.
ghost use Rattle.std.specs.Prelude.{◌≡◌, IfOk, IfErr};
ghost use Rattle.sv_file_checks.specs.Checks.{ReadRefusal};
ghost use Rattle.sv_file_checks.specs.Faults.{CountsFault};
ghost use Rattle.sv_outputs.specs.Reading.{AreRead, IsRead, IsTableOver, ReadsRefused, TableRefusal};

use std::alloc::Global;
use sv_dir::Dir;
use sv_file_checks::{other_field, read_bytes};
use sv_model::{FileMeta, Refusal, Table};
use sv_table::{DecodeError, decode};

// The table of which the bytes are a text, over the file's range.
fn table_of(alloc: Global, file: &FileMeta, bytes: &[u8]) -> Result<Table, Refusal>
    ensures table { IfOk result (λ table. IsTableOver file.now bytes.now table) }
    ensures refused { IfErr result (TableRefusal file.now bytes.now) }
{
    let number = file.number.0;
    match decode(alloc, bytes) {
        Ok(table) => match other_field(file, table.from, table.to, &table.bottom) {
            None => Ok(table),
            Some(place) => Err(Refusal::BadFile { number, place }),
        },
        Err(DecodeError::Bad { place }) => Err(Refusal::BadFile { number, place }),
        Err(DecodeError::OutOfMemory) => Err(Refusal::OutOfMemory),
    }
}

// The table that the file holds.
fn read_table<D: Dir>(alloc: Global, dir: &mut D, file: &FileMeta) -> Result<Table, Refusal>
    ensures read { IfOk result (IsRead (D.files dir.old) file.now) }
    ensures refused { IfErr result (ReadRefusal (D.files dir.old) file.now) }
    ensures same { D.files dir.new ≡ D.files dir.old }
    ensures faults { CountsFault result (D.faults dir.old) (D.faults dir.new) }
{
    let bytes = match read_bytes(dir, file.number) {
        Ok(bytes) => bytes,
        Err(refusal) => return Err(refusal),
    };
    table_of(alloc, file, bytes.as_slice())
}

// The tables that the files hold, in their order. The first file that is bad is the one that is refused.
pub(crate) fn read_tables<D: Dir>(
    alloc: Global,
    dir: &mut D,
    files: &[FileMeta],
) -> Result<Vec<Table>, Refusal>
    ensures read { IfOk result (λ tables. AreRead (D.files dir.old) files.now tables.items) }
    ensures refused { IfErr result (ReadsRefused (D.files dir.old) files.now) }
    ensures same { D.files dir.new ≡ D.files dir.old }
    ensures faults { CountsFault result (D.faults dir.old) (D.faults dir.new) }
{
    let mut tables = Vec::new(alloc);
    for file in files {
        let table = match read_table(alloc, dir, file) {
            Ok(table) => table,
            Err(refusal) => return Err(refusal),
        };
        let Ok(()) = tables.push(table) else {
            return Err(Refusal::OutOfMemory);
        };
    }
    Ok(tables)
}
