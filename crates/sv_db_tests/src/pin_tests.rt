// Pins of a lane.
ghost use Rattle.sv_db.specs.Locals.{IsLocal};
ghost use Rattle.sv_slots.specs.Known.{table_of};

use crate::lanes::double;
use crate::steps::{finds_pinned, pins, puts};
use crate::words::{key, name};
use std::rt::HostRuntime;
use std::test::Fail;
use sv_model::Refusal;

// A pin shows what is written into its memtable later.
#[test]
fn reads_through_a_pin(rt: HostRuntime) -> Result<(), Fail> {
    let (db, mut first, mut second) = double(rt.alloc())?;
    pins(&rt, &db, &mut first, 0)?;
    puts(&rt, rt.alloc(), &db, &mut second, "1", 1)?;
    finds_pinned(&rt, rt.alloc(), &db, &mut first, 0, "1", 1)
}

// A pin is let go once, and nothing is read through it then.
#[test]
fn lets_a_pin_go_once(rt: HostRuntime) -> Result<(), Fail> {
    let (db, mut first, _second) = double(rt.alloc())?;
    pins(&rt, &db, &mut first, 0)?;
    assert_eq!(rt; first.unpin(&rt, &db, 0), Ok(()));
    assert_eq!(rt; first.unpin(&rt, &db, 0), Err(Refusal::NoPin));
    let key = key(rt.alloc(), "k")?;
    let none = first.get_pinned(&rt, rt.alloc(), &db, 0, &key);
    assert_eq!(rt; none.err(), Some(Refusal::NoPin));
    Ok(())
}

// There are sixteen at most, and the least number that is free is taken.
#[test]
fn pins_sixteen(rt: HostRuntime) -> Result<(), Fail> {
    let (db, mut first, _second) = double(rt.alloc())?;
    for number in 0..16 {
        pins(&rt, &db, &mut first, number)?;
    }
    let family = name("default")?;
    assert_eq!(rt; first.pin(&rt, &db, &family), Err(Refusal::TooManyPins));
    assert_eq!(rt; first.unpin(&rt, &db, 3), Ok(()));
    pins(&rt, &db, &mut first, 3)
}
