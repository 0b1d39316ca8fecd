// The three locks are taken and given back.
use crate::lanes::single;
use std::marker::Brand;
use std::rt::HostRuntime;
use std::test::Fail;

#[test]
fn takes_the_directory(rt: HostRuntime) -> Result<(), Fail> {
    let (core, mut seat) = single(rt.alloc())?;
    let dir = core.take_dir(&rt, &mut seat);
    core.give_dir::<Brand>(&mut seat, dir);
    Ok(())
}

#[test]
fn takes_a_cell(rt: HostRuntime) -> Result<(), Fail> {
    let (core, mut seat) = single(rt.alloc())?;
    let cell = core.take_cell(&rt, &mut seat, 63);
    assert_eq!(rt; cell.number, 63);
    core.give_cell::<Brand>(&mut seat, 63, cell);
    Ok(())
}

#[test]
fn gives_a_cell_with_the_state(rt: HostRuntime) -> Result<(), Fail> {
    let (core, mut seat) = single(rt.alloc())?;
    let state = core.take_state(&rt, &mut seat);
    let cell = core.take_cell(&rt, &mut seat, 2);
    assert_eq!(rt; cell.number, 2);
    core.write_cell::<Brand>(&mut seat, 2, cell, &state);
    core.give_state::<Brand>(&mut seat, state);
    Ok(())
}
