// What a lane does with its own slots, and what it loads.
use crate::fills::fill;
use crate::lanes::single;
use std::rt::HostRuntime;
use std::test::Fail;
use sv_model::{FamilyId, Pack, SvSerial};
use sv_slots::{Back, Miss, Sub};

#[test]
fn looks_at_number_words(rt: HostRuntime) -> Result<(), Fail> {
    let (core, mut seat) = single(rt.alloc())?;
    assert_eq!(rt; core.look(&mut seat, FamilyId(0)), Some(256));
    assert_eq!(rt; core.look(&mut seat, FamilyId(3)), Some(1027));
    assert_eq!(rt; core.look(&mut seat, FamilyId(4)), None);
    Ok(())
}

#[test]
fn loads_the_round(rt: HostRuntime) -> Result<(), Fail> {
    let (core, mut seat) = single(rt.alloc())?;
    assert_eq!(rt; core.round(&mut seat), 0);
    Ok(())
}

#[test]
fn misses_where_nothing_is_cached(rt: HostRuntime) -> Result<(), Fail> {
    let (core, mut seat) = single(rt.alloc())?;
    assert!(rt; matches!(core.try_borrow(&mut seat, FamilyId(1)), Err(Miss::Empty)));
    let counts = core.counts(&seat);
    assert_eq!(rt; (counts.uses, counts.misses, counts.swept), (1, 1, 0));
    Ok(())
}

#[test]
fn lends_what_is_cached(rt: HostRuntime) -> Result<(), Fail> {
    let (core, mut seat) = single(rt.alloc())?;
    fill(&rt, rt.alloc(), &core, &mut seat, 2)?;
    let Ok(borrow) = core.try_borrow(&mut seat, FamilyId(2)) else {
        return Err(Fail::from("no borrow"));
    };
    assert_eq!(rt;
        borrow.sv().pack,
        Pack {
            serial: SvSerial(3),
            place: 2
        }
    );
    assert!(rt; matches!(core.give_back(&mut seat, borrow), Back::Kept));
    let counts = core.counts(&seat);
    assert_eq!(rt; (counts.uses, counts.misses, counts.swept), (1, 0, 0));
    Ok(())
}

#[test]
fn rests_what_is_cached(rt: HostRuntime) -> Result<(), Fail> {
    let (core, mut seat) = single(rt.alloc())?;
    fill(&rt, rt.alloc(), &core, &mut seat, 2)?;
    let Some(sv) = core.rest(&mut seat, FamilyId(2)) else {
        return Err(Fail::from("nothing was cached"));
    };
    assert_eq!(rt;
        sv.pack,
        Pack {
            serial: SvSerial(3),
            place: 2
        }
    );
    assert!(rt; matches!(core.drop_ref(&mut seat, sv), Sub::More));
    Ok(())
}

#[test]
fn rests_where_nothing_is_cached(rt: HostRuntime) -> Result<(), Fail> {
    let (core, mut seat) = single(rt.alloc())?;
    assert!(rt; core.rest(&mut seat, FamilyId(15)).is_none());
    Ok(())
}
