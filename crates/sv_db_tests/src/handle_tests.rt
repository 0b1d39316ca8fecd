// A lane rests, and what it is refused of families.
use crate::lanes::double;
use crate::steps::finds_nothing;
use crate::words::name;
use std::rt::HostRuntime;
use std::test::Fail;
use sv_model::Refusal;

// What the lane cached is given up once.
#[test]
fn gives_up_what_it_cached(rt: HostRuntime) -> Result<(), Fail> {
    let (db, mut first, _second) = double(rt.alloc())?;
    finds_nothing(&rt, rt.alloc(), &db, &mut first, 0)?;
    assert_eq!(rt; first.rest(&rt, &db), 1);
    assert_eq!(rt; first.rest(&rt, &db), 0);
    finds_nothing(&rt, rt.alloc(), &db, &mut first, 0)
}

// The first family is neither dropped nor given up.
#[test]
fn keeps_the_first_family(rt: HostRuntime) -> Result<(), Fail> {
    let (db, mut first, _second) = double(rt.alloc())?;
    let family = name("default")?;
    assert_eq!(rt;
        first.drop_family(&rt, &db, &family),
        Err(Refusal::IsDefault)
    );
    assert_eq!(rt; first.release(&rt, &db, &family), Err(Refusal::IsDefault));
    Ok(())
}

#[test]
fn has_no_handle_of_another_family(rt: HostRuntime) -> Result<(), Fail> {
    let (db, mut first, _second) = double(rt.alloc())?;
    let family = name("other")?;
    assert_eq!(rt;
        first.drop_family(&rt, &db, &family),
        Err(Refusal::NoFamily)
    );
    assert_eq!(rt; first.release(&rt, &db, &family), Err(Refusal::NoFamily));
    Ok(())
}
