// A current changes while lanes cache it or have borrowed it.
use crate::fills::fill;
use crate::installs::{begin, clean, end_current, finish, install, pass};
use crate::lanes::{double, reference, single};
use crate::stages::Stage;
use std::rt::HostRuntime;
use std::test::Fail;
use sv_model::{FamilyId, Pack, SvSerial};
use sv_slots::{Back, Miss, Sub};

const OLD: Pack = Pack {
    serial: SvSerial(1),
    place: 0,
};

// Nothing is cached: the old SuperVersion goes with the install.
#[test]
fn installs_and_cleans(rt: HostRuntime) -> Result<(), Fail> {
    let (core, mut first, mut second) = double(rt.alloc())?;
    let new = reference(rt.alloc(), 5, 4, 0)?;
    let old = reference(rt.alloc(), 1, 0, 0)?;
    let (own, other, left) = install(&rt, &core, &mut first, new, old);
    assert_eq!(rt; (own, other), (false, false));
    let Sub::Last(owed) = left else {
        return Err(Fail::from("not the last"));
    };
    clean(&rt, &core, &mut first, owed);
    assert_eq!(rt; core.look(&mut second, FamilyId(0)), Some(1284));
    assert_eq!(rt; core.round(&mut second), 1);
    Ok(())
}

// The other lane borrows before the sweep: it is told the new number, and has the old reference, which is the last.
#[test]
fn tells_of_a_stale_slot(rt: HostRuntime) -> Result<(), Fail> {
    let (core, mut first, mut second) = double(rt.alloc())?;
    fill(&rt, rt.alloc(), &core, &mut second, 0)?;
    let new = reference(rt.alloc(), 5, 4, 0)?;
    let old = reference(rt.alloc(), 1, 0, 0)?;
    begin(&rt, &core, &mut first, &new);
    let Err(Miss::Stale { cached, now }) = core.try_borrow(&mut second, FamilyId(0)) else {
        return Err(Fail::from("not stale"));
    };
    assert_eq!(rt; (cached.pack, now), (OLD, 1284));
    assert!(rt; !pass(&core, &mut first, Stage::Installed, 0));
    assert!(rt; !pass(&core, &mut first, Stage::Installed, 1));
    assert!(rt; matches!(finish(&core, &mut first, Stage::Installed, old), Sub::More));
    assert!(rt; matches!(core.drop_ref(&mut second, cached), Sub::Last(_)));
    Ok(())
}

// The other lane caches the old one: the sweep takes it.
#[test]
fn sweeps_what_is_cached(rt: HostRuntime) -> Result<(), Fail> {
    let (core, mut first, mut second) = double(rt.alloc())?;
    fill(&rt, rt.alloc(), &core, &mut second, 0)?;
    let new = reference(rt.alloc(), 5, 4, 0)?;
    let old = reference(rt.alloc(), 1, 0, 0)?;
    let (own, other, left) = install(&rt, &core, &mut first, new, old);
    assert_eq!(rt; (own, other), (false, true));
    assert!(rt; matches!(left, Sub::Last(_)));
    assert!(rt; matches!(core.try_borrow(&mut second, FamilyId(0)), Err(Miss::Empty)));
    Ok(())
}

// The other lane has borrowed the old one: the sweep leaves its mark, and the lane that gives back cleans.
#[test]
fn tells_a_borrower_of_the_sweep(rt: HostRuntime) -> Result<(), Fail> {
    let (core, mut first, mut second) = double(rt.alloc())?;
    fill(&rt, rt.alloc(), &core, &mut second, 0)?;
    let Ok(borrow) = core.try_borrow(&mut second, FamilyId(0)) else {
        return Err(Fail::from("no borrow"));
    };
    let new = reference(rt.alloc(), 5, 4, 0)?;
    let old = reference(rt.alloc(), 1, 0, 0)?;
    let (own, other, left) = install(&rt, &core, &mut first, new, old);
    assert_eq!(rt; (own, other), (false, false));
    assert!(rt; matches!(left, Sub::More));
    let Back::Swept(sv) = core.give_back(&mut second, borrow) else {
        return Err(Fail::from("not swept"));
    };
    let Sub::Last(owed) = core.drop_ref(&mut second, sv) else {
        return Err(Fail::from("not the last"));
    };
    assert_eq!(rt; owed.pack(), OLD);
    assert_eq!(rt; core.counts(&second).swept, 1);
    clean(&rt, &core, &mut second, owed);
    Ok(())
}

// The family has no current any more, which the only lane ends.
#[test]
fn ends_a_current(rt: HostRuntime) -> Result<(), Fail> {
    let (core, mut seat) = single(rt.alloc())?;
    let old = reference(rt.alloc(), 1, 0, 0)?;
    let (own, left) = end_current(&rt, &core, &mut seat, old);
    assert!(rt; !own);
    assert!(rt; matches!(left, Sub::Last(_)));
    assert_eq!(rt; core.look(&mut seat, FamilyId(0)), None);
    Ok(())
}
