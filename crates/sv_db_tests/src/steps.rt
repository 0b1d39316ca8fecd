// What the lanes of the tests do with the family `default` and the key `k`.
ghost use Rattle.sv_db.specs.Locals.{IsLocal};
ghost use Rattle.sv_slots.specs.Known.{table_of};

use crate::words::{is, key, name, value};
use std::alloc::Global;
use std::process::Abort;
use std::sync::Wait;
use std::test::Fail;
use sv_db::{Db, Local};
use sv_dir::MemDir;
use sv_model::SvSerial;

/// The lane writes this value, which is the write of this number.
pub fn puts<R: Wait + Abort>(
    rt: &R,
    alloc: Global,
    db: &Db<MemDir>,
    lane: &mut Local<MemDir>,
    bytes: &str,
    number: u64,
) -> Result<(), Fail>
    requires { IsLocal (table_of db.now.core) db.now.lanes lane.old.lane lane.old.handles lane.old.pins lane.old.seat }
    ensures { IsLocal (table_of db.now.core) db.now.lanes lane.new.lane lane.new.handles lane.new.pins lane.new.seat }
{
    let (family, key, value) = (name("default")?, key(alloc, "k")?, value(alloc, bytes)?);
    let put = lane.put(rt, alloc, db, &family, key, value);
    assert_eq!(rt; put, Ok(number));
    Ok(())
}

/// The lane deletes, which is the write of this number.
pub fn deletes<R: Wait + Abort>(
    rt: &R,
    alloc: Global,
    db: &Db<MemDir>,
    lane: &mut Local<MemDir>,
    number: u64,
) -> Result<(), Fail>
    requires { IsLocal (table_of db.now.core) db.now.lanes lane.old.lane lane.old.handles lane.old.pins lane.old.seat }
    ensures { IsLocal (table_of db.now.core) db.now.lanes lane.new.lane lane.new.handles lane.new.pins lane.new.seat }
{
    let (family, key) = (name("default")?, key(alloc, "k")?);
    let gone = lane.delete(rt, alloc, db, &family, key);
    assert_eq!(rt; gone, Ok(number));
    Ok(())
}

/// The lane finds this value, after so many writes.
pub fn finds<R: Wait + Abort>(
    rt: &R,
    alloc: Global,
    db: &Db<MemDir>,
    lane: &mut Local<MemDir>,
    bytes: &str,
    cut: u64,
) -> Result<(), Fail>
    requires { IsLocal (table_of db.now.core) db.now.lanes lane.old.lane lane.old.handles lane.old.pins lane.old.seat }
    ensures { IsLocal (table_of db.now.core) db.now.lanes lane.new.lane lane.new.handles lane.new.pins lane.new.seat }
{
    let (family, key) = (name("default")?, key(alloc, "k")?);
    let got = lane.get(rt, alloc, db, &family, &key)?;
    assert!(rt; is(&got.value, bytes));
    assert_eq!(rt; (got.cut, got.sv), (cut, SvSerial(1)));
    Ok(())
}

/// The lane finds nothing, after so many writes.
pub fn finds_nothing<R: Wait + Abort>(
    rt: &R,
    alloc: Global,
    db: &Db<MemDir>,
    lane: &mut Local<MemDir>,
    cut: u64,
) -> Result<(), Fail>
    requires { IsLocal (table_of db.now.core) db.now.lanes lane.old.lane lane.old.handles lane.old.pins lane.old.seat }
    ensures { IsLocal (table_of db.now.core) db.now.lanes lane.new.lane lane.new.handles lane.new.pins lane.new.seat }
{
    let (family, key) = (name("default")?, key(alloc, "k")?);
    let got = lane.get(rt, alloc, db, &family, &key)?;
    assert!(rt; got.value.is_none());
    assert_eq!(rt; (got.cut, got.sv), (cut, SvSerial(1)));
    Ok(())
}

/// The lane pins, and the pin has this number.
pub fn pins<R: Wait + Abort>(
    rt: &R,
    db: &Db<MemDir>,
    lane: &mut Local<MemDir>,
    number: u8,
) -> Result<(), Fail>
    requires { IsLocal (table_of db.now.core) db.now.lanes lane.old.lane lane.old.handles lane.old.pins lane.old.seat }
    ensures { IsLocal (table_of db.now.core) db.now.lanes lane.new.lane lane.new.handles lane.new.pins lane.new.seat }
{
    let family = name("default")?;
    assert_eq!(rt; lane.pin(rt, db, &family), Ok((number, SvSerial(1))));
    Ok(())
}

/// Through the pin of this number the lane finds this value, after so many writes.
pub fn finds_pinned<R: Wait + Abort>(
    rt: &R,
    alloc: Global,
    db: &Db<MemDir>,
    lane: &mut Local<MemDir>,
    number: u64,
    bytes: &str,
    cut: u64,
) -> Result<(), Fail>
    requires { IsLocal (table_of db.now.core) db.now.lanes lane.old.lane lane.old.handles lane.old.pins lane.old.seat }
    ensures { IsLocal (table_of db.now.core) db.now.lanes lane.new.lane lane.new.handles lane.new.pins lane.new.seat }
{
    let key = key(alloc, "k")?;
    let got = lane.get_pinned(rt, alloc, db, number, &key)?;
    assert!(rt; is(&got.value, bytes));
    assert_eq!(rt; (got.cut, got.sv), (cut, SvSerial(1)));
    Ok(())
}
