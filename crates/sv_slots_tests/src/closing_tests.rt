// All seats come back.
use crate::lanes::double;
use crate::openings::open;
use crate::stages::Stage;
use std::rt::HostRuntime;
use std::test::Fail;

#[test]
fn closes_over_all_seats(rt: HostRuntime) -> Result<(), Fail> {
    let (core, seats) = open(rt.alloc(), 3)?;
    let (state, _dir) = core.close(seats);
    assert_eq!(rt; state, Stage::Opened);
    Ok(())
}

#[test]
fn gathers_the_other_seat(rt: HostRuntime) -> Result<(), Fail> {
    let (core, mut first, second) = double(rt.alloc())?;
    core.gather(&mut first, second);
    assert_eq!(rt; core.round(&mut first), 0);
    Ok(())
}
