// Families at the state: who is answered what, in turn.
use crate::tables::{expect, expect_closed};
use std::rt::HostRuntime;
use std::test::Fail;
use sv_model::Refusal::{AlreadyOpen, Dropped, NameTaken, NoFamily, NotOpen, TooManyFamilies};
use sv_state_bench::Answer::{Count, Done, Family, File, Numbers, Refused, Super, Totals};
use sv_state_bench::Call::{By, Current, Gone, Made, Purge};
use sv_state_bench::Deed::{Compact, Create, Drop, Find, Flush, Open, Put, Release};
use sv_state_bench::{Answer, Bench, Call};

const NAMES: [&str; 16] = [
    "c1", "c2", "c3", "c4", "c5", "c6", "c7", "c8", "c9", "c10", "c11", "c12", "c13", "c14", "c15",
    "c16",
];

#[test]
fn makes_fifteen_more(rt: HostRuntime) -> Result<(), Fail> {
    let mut bench = Bench::new(rt.alloc(), 1)?;
    let mut id = 1;
    for name in NAMES {
        let made = bench.answer(By(1, name, Create));
        if id < 16 {
            assert_eq!(rt; made, Family(id));
            assert_eq!(rt; bench.answer(By(1, name, Create)), Refused(NameTaken));
            id += 1;
        } else {
            assert_eq!(rt; made, Refused(TooManyFamilies));
        }
    }
    Ok(())
}

// A family is dropped while it has a handle, and retired when that is taken back.
const COLD: [(Call, Answer); 17] = [
    (By(1, "cold", Create), Family(1)),
    (By(1, "cold", Put("k")), Count(1)),
    (By(1, "cold", Flush), File(1, 0, 1)),
    (By(1, "cold", Drop), Family(1)),
    (Current(1), Super(4, 1)),
    (By(1, "cold", Put("k")), Refused(Dropped)),
    (By(1, "cold", Flush), Refused(Dropped)),
    (By(1, "cold", Compact), Refused(Dropped)),
    (By(1, "cold", Drop), Refused(Dropped)),
    (Purge(0), Numbers([0, 0, 0, 0])),
    (By(1, "cold", Release), Family(1)),
    (Current(1), Answer::Nothing),
    (By(1, "cold", Find), Refused(NoFamily)),
    (By(1, "cold", Put("k")), Refused(NoFamily)),
    (Purge(0), Numbers([1, 0, 0, 0])),
    (Made, Totals(4, 3, 1)),
    (Gone, Totals(3, 2, 1)),
];

#[test]
fn retires_a_dropped_family(rt: HostRuntime) -> Result<(), Fail> {
    let mut bench = Bench::new(rt.alloc(), 1)?;
    expect(&rt, &mut bench, &COLD);
    expect_closed(&rt, bench, (4, 3, 1), (4, 3, 1))
}

// A name is taken again while another lane has a handle of the dropped family.
const TWO_LANES: [(Call, Answer); 17] = [
    (By(1, "a", Create), Family(1)),
    (By(2, "a", Find), Refused(NotOpen)),
    (By(2, "a", Open), Family(1)),
    (By(2, "b", Find), Refused(NoFamily)),
    (By(1, "a", Put("k")), Count(1)),
    (Current(1), Super(2, 1)),
    (By(1, "a", Drop), Family(1)),
    (By(1, "a", Release), Done),
    (By(1, "a", Create), Family(2)),
    (By(1, "a", Create), Refused(NameTaken)),
    (By(2, "a", Find), Family(1)),
    (By(2, "a", Open), Refused(AlreadyOpen)),
    (Made, Totals(3, 3, 0)),
    (By(2, "a", Release), Family(1)),
    (By(2, "a", Find), Refused(NotOpen)),
    (By(2, "a", Open), Family(2)),
    (Gone, Totals(1, 1, 0)),
];

#[test]
fn reads_a_dropped_family_by_its_handles(rt: HostRuntime) -> Result<(), Fail> {
    let mut bench = Bench::new(rt.alloc(), 1)?;
    expect(&rt, &mut bench, &TWO_LANES);
    expect_closed(&rt, bench, (3, 3, 0), (3, 3, 0))
}
