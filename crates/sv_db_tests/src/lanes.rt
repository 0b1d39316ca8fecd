// A new database of two lanes over a directory in memory.
ghost use Rattle.std.specs.Prelude.{IfOk};
ghost use Rattle.sv_db.specs.Locals.{IsLocal};
ghost use Rattle.sv_slots.specs.Known.{table_of};

use std::alloc::Global;
use sv_db::{Db, Local, open_db};
use sv_dir::MemDir;
use sv_model::{FileNumber, OutOfMemory};

/// The database with its lanes.
pub fn double(alloc: Global) -> Result<(Db<MemDir>, Local<MemDir>, Local<MemDir>), OutOfMemory>
    ensures first { IfOk result (λ t. IsLocal (table_of t.0.core) t.0.lanes t.1.lane t.1.handles t.1.pins t.1.seat) }
    ensures second { IfOk result (λ t. IsLocal (table_of t.0.core) t.0.lanes t.2.lane t.2.handles t.2.pins t.2.seat) }
{
    let dir = MemDir::new(alloc, Vec::new(alloc), Vec::new(alloc))?;
    let Ok((db, mut locals)) = open_db(alloc, 2, FileNumber(1), Box::new(alloc, dir)?) else {
        return Err(OutOfMemory);
    };
    let first = locals.remove(0);
    let second = locals.remove(0);
    Ok((db, first, second))
}
