// A store that was kept, for tests of what opens with it.
ghost use Rattle.std.specs.Prelude.{◌≡◌, ◌∷◌, [], IfOk, length};
ghost use Rattle.sv_state.specs.Openings.{MayOpen};
ghost use Rattle.sv_state_bench.specs.Kept.{IsKeptAs, kept_file};

use std::alloc::Global;
use sv_model::{
    Bottom, FileMeta, FileNumber, Key, Name, Op, OpenFamily, Opening, Options, OutOfMemory,
    Refusal, Row,
};

/// A store whose family `default` has one write, in file 3, and whose family `a` has none.
pub fn kept_store(alloc: Global) -> Result<Opening, Refusal>
    ensures { IfOk result (λ opening. MayOpen opening 5) }
{
    let first = kept_family(b"default", kept_files(alloc)?, kept_rows(alloc)?)?;
    let second = kept_family(b"a", Vec::new(alloc), Vec::new(alloc))?;
    Ok(Opening {
        next: FileNumber(5),
        families: both(alloc, first, second)?,
    })
}

fn both(
    alloc: Global,
    first: OpenFamily,
    second: OpenFamily,
) -> Result<Vec<OpenFamily>, OutOfMemory>
    ensures { IfOk result (λ families. families.items ≡ first ∷ second ∷ []) }
{
    let mut families = Vec::new(alloc);
    families.push(first)?;
    families.push(second)?;
    Ok(families)
}

fn kept_files(alloc: Global) -> Result<Vec<FileMeta>, OutOfMemory>
    ensures { IfOk result (λ files. files.items ≡ kept_file ∷ []) }
{
    let mut files = Vec::new(alloc);
    files.push(FileMeta {
        number: FileNumber(3),
        from: 0,
        to: 1,
        bottom: Bottom::plain(),
    })?;
    Ok(files)
}

fn kept_rows(alloc: Global) -> Result<Vec<Row>, Refusal>
    ensures { IfOk result (λ rows. length rows.items ≡ 1) }
{
    let row = Row {
        key: Key::new(alloc, b"a")?,
        op: Op::Delete,
    };
    Ok(one(alloc, row)?)
}

fn one(alloc: Global, row: Row) -> Result<Vec<Row>, OutOfMemory>
    ensures { IfOk result (λ rows. rows.items ≡ row ∷ []) }
{
    let mut rows = Vec::new(alloc);
    rows.push(row)?;
    Ok(rows)
}

fn kept_family(name: &[u8], files: Vec<FileMeta>, writes: Vec<Row>) -> Result<OpenFamily, Refusal>
    ensures { IfOk result (λ family. IsKeptAs name.now files.items (length writes.items) family) }
{
    let Some(name) = Name::new(name) else {
        return Err(Refusal::NoFamily);
    };
    Ok(OpenFamily {
        name,
        options: Options::FIRST,
        files,
        writes,
    })
}
