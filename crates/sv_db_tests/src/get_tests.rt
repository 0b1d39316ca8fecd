// Gets of two lanes of one database.
use crate::lanes::double;
use crate::steps::{deletes, finds, finds_nothing, puts};
use crate::words::{key, name, value};
use std::rt::HostRuntime;
use std::test::Fail;
use sv_model::Refusal;

// Nothing is found in the first SuperVersion, which each lane then caches.
#[test]
fn finds_nothing_in_a_new_database(rt: HostRuntime) -> Result<(), Fail> {
    let (db, mut first, mut second) = double(rt.alloc())?;
    finds_nothing(&rt, rt.alloc(), &db, &mut first, 0)?;
    finds_nothing(&rt, rt.alloc(), &db, &mut first, 0)?;
    finds_nothing(&rt, rt.alloc(), &db, &mut second, 0)
}

// Each lane finds what either wrote last.
#[test]
fn finds_what_another_lane_wrote(rt: HostRuntime) -> Result<(), Fail> {
    let (db, mut first, mut second) = double(rt.alloc())?;
    puts(&rt, rt.alloc(), &db, &mut first, "1", 1)?;
    finds(&rt, rt.alloc(), &db, &mut second, "1", 1)?;
    puts(&rt, rt.alloc(), &db, &mut second, "2", 2)?;
    finds(&rt, rt.alloc(), &db, &mut first, "2", 2)
}

// A delete hides what was written.
#[test]
fn finds_nothing_after_a_delete(rt: HostRuntime) -> Result<(), Fail> {
    let (db, mut first, mut second) = double(rt.alloc())?;
    puts(&rt, rt.alloc(), &db, &mut first, "1", 1)?;
    deletes(&rt, rt.alloc(), &db, &mut second, 2)?;
    finds_nothing(&rt, rt.alloc(), &db, &mut first, 2)
}

// A name by which the lane has no handle.
#[test]
fn gets_by_no_name_that_no_family_has(rt: HostRuntime) -> Result<(), Fail> {
    let (db, mut first, _second) = double(rt.alloc())?;
    let (family, key) = (name("other")?, key(rt.alloc(), "k")?);
    let got = first.get(&rt, rt.alloc(), &db, &family, &key);
    assert_eq!(rt; got.err(), Some(Refusal::NoFamily));
    Ok(())
}

#[test]
fn puts_by_no_name_that_no_family_has(rt: HostRuntime) -> Result<(), Fail> {
    let (db, mut first, _second) = double(rt.alloc())?;
    let alloc = rt.alloc();
    let (family, key, value) = (name("other")?, key(alloc, "k")?, value(alloc, "1")?);
    let put = first.put(&rt, alloc, &db, &family, key, value);
    assert_eq!(rt; put, Err(Refusal::NoFamily));
    Ok(())
}
