// The families: their names, their handles, their limit, and when one may be retired.
ghost use Rattle.std.specs.Prelude.{◌<◌};

use crate::calls::Call::{Create, Drop, Find, Open, Release};
use crate::calls::{answer, may_retire};
use std::rt::HostRuntime;
use std::test::Fail;
use sv_family::Families;
use sv_model::Refusal::{
    AlreadyOpen, Dropped, IsDefault, NameTaken, NoFamily, NotOpen, TooManyFamilies,
};
use sv_model::{FamilyId, MAX_FAMILIES};

#[test]
fn answers_in_turn(rt: HostRuntime) -> Result<(), Fail> {
    let mut families = Families::new(rt.alloc())?;
    for (lane, call, name, id) in [
        (1, Create, "a", Ok(1)),
        (2, Find, "a", Err(NotOpen)),
        (2, Release, "a", Err(NotOpen)),
        (2, Open, "a", Ok(1)),
        (2, Find, "b", Err(NoFamily)),
        (2, Open, "b", Err(NoFamily)),
        (2, Find, "a", Ok(1)),
        (2, Create, "a", Err(NameTaken)),
        (1, Drop, "a", Ok(1)),
        (1, Drop, "a", Err(Dropped)),
        (3, Find, "a", Err(NoFamily)),
        (3, Open, "a", Err(NoFamily)),
        (1, Create, "a", Err(AlreadyOpen)),
        (1, Release, "a", Ok(1)),
        (1, Release, "a", Err(NoFamily)),
        (1, Create, "a", Ok(2)),
        (1, Create, "a", Err(NameTaken)),
        (1, Find, "a", Ok(2)),
        (2, Find, "a", Ok(1)),
        (2, Open, "a", Err(AlreadyOpen)),
        (2, Create, "a", Err(NameTaken)),
        (3, Find, "a", Err(NotOpen)),
        (2, Release, "a", Ok(1)),
        (2, Find, "a", Err(NotOpen)),
        (2, Open, "a", Ok(2)),
        (1, Drop, "default", Err(IsDefault)),
        (1, Release, "default", Err(IsDefault)),
        (31, Find, "default", Ok(0)),
        (31, Open, "default", Err(AlreadyOpen)),
        (31, Create, "default", Err(NameTaken)),
    ] {
        let answered = answer(&mut families, lane, call, name.as_bytes());
        assert_eq!(rt; answered, id.map(|id| FamilyId(id)));
    }
    assert_eq!(rt; families.len(), 3);
    Ok(())
}

// The name of family i, 1 to 26: a letter.
fn letter(i: u8) -> [u8; 1]
    requires { i < 100 }
{
    [96 + i]
}

#[test]
fn makes_sixteen(rt: HostRuntime) -> Result<(), Fail> {
    let mut families = Families::new(rt.alloc())?;
    for id in 1..MAX_FAMILIES as u8 {
        let made = answer(&mut families, 0, Create, &letter(id));
        assert_eq!(rt; made, Ok(FamilyId(id)));
    }
    for (lane, call, name, id) in [
        (0, Create, "z", Err(TooManyFamilies)),
        (0, Create, "a", Err(NameTaken)),
        (0, Drop, "a", Ok(1)),
        (0, Create, "a", Err(AlreadyOpen)),
        (1, Create, "a", Err(TooManyFamilies)),
        (0, Release, "a", Ok(1)),
        (0, Create, "a", Err(TooManyFamilies)),
        (0, Find, "o", Ok(15)),
    ] {
        let answered = answer(&mut families, lane, call, name.as_bytes());
        assert_eq!(rt; answered, id.map(|id| FamilyId(id)));
    }
    Ok(())
}

#[test]
fn retires_where_no_handle_is_left(rt: HostRuntime) -> Result<(), Fail> {
    let mut families = Families::new(rt.alloc())?;
    for (lane, call, id, retired) in [
        (0, Create, Ok(1), false),
        (31, Open, Ok(1), false),
        (0, Release, Ok(1), false),
        (31, Release, Ok(1), false),
        (0, Open, Ok(1), false),
        (31, Open, Ok(1), false),
        (0, Drop, Ok(1), false),
        (0, Release, Ok(1), false),
        (31, Drop, Err(Dropped), false),
        (31, Release, Ok(1), true),
        (31, Find, Err(NoFamily), true),
    ] {
        let answered = answer(&mut families, lane, call, b"cold");
        assert_eq!(rt; answered, id.map(|id| FamilyId(id)));
        assert_eq!(rt; may_retire(&families, 1), retired);
        assert!(rt; !may_retire(&families, 0));
    }
    Ok(())
}

#[test]
fn gives_the_id_again(rt: HostRuntime) -> Result<(), Fail> {
    let mut families = Families::new(rt.alloc())?;
    for name in ["a", "b", "a"] {
        let made = answer(&mut families, 4, Create, name.as_bytes());
        assert_eq!(rt; made, Ok(FamilyId(1)));
        assert_eq!(rt; families.len(), 2);
        if families.len() > 1 {
            assert_eq!(rt; families.name(FamilyId(1)).as_bytes(), name.as_bytes());
            families.take_back();
        }
        assert_eq!(rt; families.len(), 1);
        let found = answer(&mut families, 4, Find, name.as_bytes());
        assert_eq!(rt; found, Err(NoFamily));
    }
    Ok(())
}
