// The options: which values are in range, and what a set one leaves.
use crate::calls::Call::{Create, Drop};
use crate::calls::{answer, options, set};
use std::rt::HostRuntime;
use std::test::Fail;
use sv_family::Families;
use sv_model::OptionName::{self, MaxImmutable, MemtableRows};
use sv_model::{FamilyId, Options, Refusal};

fn out_of(value: u64, greatest: u64) -> Refusal {
    Refusal::BadOption {
        value,
        least: 1,
        greatest,
    }
}

#[test]
fn sets_within_the_range(rt: HostRuntime) -> Result<(), Fail> {
    let mut families = Families::new(rt.alloc())?;
    let mut wanted = Options::FIRST;
    for (option, value, fits) in [
        (MemtableRows, 0, false),
        (MemtableRows, 1, true),
        (MemtableRows, 65_536, true),
        (MemtableRows, 65_537, false),
        (MemtableRows, u64::MAX, false),
        (MaxImmutable, 0, false),
        (MaxImmutable, 1, true),
        (MaxImmutable, 8, true),
        (MaxImmutable, 9, false),
        (MaxImmutable, 256, false),
        (MemtableRows, 1000, true),
    ] {
        let answered = set(&mut families, 9, b"default", option, value);
        match (option, fits) {
            (MemtableRows, true) => wanted.memtable_rows = value as u32,
            (MaxImmutable, true) => wanted.max_immutable = value as u8,
            (MemtableRows, false) => assert_eq!(rt; answered, Err(out_of(value, 65_536))),
            (MaxImmutable, false) => assert_eq!(rt; answered, Err(out_of(value, 8))),
        }
        assert_eq!(rt; answered.is_ok(), fits);
        assert_eq!(rt; options(&families, 0), Some(wanted));
    }
    Ok(())
}

#[test]
fn refuses_in_order(rt: HostRuntime) -> Result<(), Fail> {
    let mut families = Families::new(rt.alloc())?;
    let made = answer(&mut families, 0, Create, b"cold");
    assert_eq!(rt; made, Ok(FamilyId(1)));
    for (lane, name, value, id) in [
        (0, "cold", 3, Ok(1)),
        (0, "warm", 9, Err(out_of(9, 8))),
        (0, "warm", 8, Err(Refusal::NoFamily)),
        (1, "cold", 9, Err(out_of(9, 8))),
        (1, "cold", 8, Err(Refusal::NotOpen)),
    ] {
        let answered = set(&mut families, lane, name.as_bytes(), MaxImmutable, value);
        assert_eq!(rt; answered, id.map(|id| FamilyId(id)));
    }
    let dropped = answer(&mut families, 0, Drop, b"cold");
    assert_eq!(rt; dropped, Ok(FamilyId(1)));
    for (value, refusal) in [(9, out_of(9, 8)), (8, Refusal::Dropped)] {
        let answered = set(&mut families, 0, b"cold", MaxImmutable, value);
        assert_eq!(rt; answered, Err(refusal));
    }
    let set = Options {
        memtable_rows: 1024,
        max_immutable: 3,
    };
    assert_eq!(rt; options(&families, 0), Some(Options::FIRST));
    assert_eq!(rt; options(&families, 1), Some(set));
    assert_eq!(rt; options(&families, 2), None);
    Ok(())
}
