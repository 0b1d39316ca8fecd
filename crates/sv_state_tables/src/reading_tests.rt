// What the state tells, and what it hands out at once.
use crate::tables::expect;
use std::rt::HostRuntime;
use std::test::Fail;
use sv_model::FileNumber;
use sv_model::OptionName::MemtableRows;
use sv_model::Refusal::Disabled;
use sv_state_bench::Answer::{Count, Done, Family, File, Nothing, Numbers, Super};
use sv_state_bench::Call::{By, Current, Hold, Holds, Last, Named, Next, Options};
use sv_state_bench::Deed::{Compact, Create, Drop, Flush, Put, Set};
use sv_state_bench::{Answer, Bench, Call};

const TOLD: [(Call, Answer); 21] = [
    (Next, Count(1)),
    (Holds, Count(0)),
    (Options(0), Answer::Options(1024, 2)),
    (Named(0, "default"), Done),
    (Named(0, "a"), Nothing),
    (Options(1), Nothing),
    (By(1, "a", Create), Family(1)),
    (Named(1, "a"), Done),
    (By(1, "a", Put("k")), Count(1)),
    (By(1, "a", Flush), File(1, 0, 1)),
    (Next, Count(2)),
    (Last(1), Numbers([1, 0, 0, 0])),
    (Last(0), Numbers([0, 0, 0, 0])),
    (By(1, "a", Set(MemtableRows, 7)), Super(5, 2)),
    (Options(1), Answer::Options(7, 2)),
    (Hold(3), Count(1)),
    (Hold(4), Count(1)),
    (Holds, Count(2)),
    (By(1, "a", Drop), Family(1)),
    (Options(1), Nothing),
    (Current(1), Super(5, 2)),
];

#[test]
fn tells_what_it_has(rt: HostRuntime) -> Result<(), Fail> {
    let mut bench = Bench::new(rt.alloc(), 1)?;
    expect(&rt, &mut bench, &TOLD);
    let found = bench.find_obsolete();
    assert!(rt; matches!(found, Err(Disabled { count: 2 })));
    Ok(())
}

// The first file has number 10, and another takes its place.
const REPLACED: [(Call, Answer); 3] = [
    (By(1, "default", Put("k")), Count(1)),
    (By(1, "default", Flush), File(10, 0, 1)),
    (By(1, "default", Compact), File(11, 0, 1)),
];

#[test]
fn hands_out_what_is_obsolete(rt: HostRuntime) -> Result<(), Fail> {
    let mut bench = Bench::new(rt.alloc(), 10)?;
    expect(&rt, &mut bench, &REPLACED);
    let (found, jobs) = bench.find_obsolete()?;
    assert_eq!(rt; found.as_slice(), [FileNumber(10)].as_slice());
    assert_eq!(rt; jobs, 1);
    Ok(())
}

// The files of the directory, of which 11 has the rows, and 12 is above each number of the state.
const LISTED: [FileNumber; 5] = [
    FileNumber(1),
    FileNumber(9),
    FileNumber(10),
    FileNumber(11),
    FileNumber(12),
];

const HANDED: [FileNumber; 3] = [FileNumber(1), FileNumber(9), FileNumber(10)];

#[test]
fn hands_out_strays(rt: HostRuntime) -> Result<(), Fail> {
    let mut bench = Bench::new(rt.alloc(), 10)?;
    expect(&rt, &mut bench, &REPLACED);
    let (found, summary) = bench.scan(&LISTED)?;
    assert_eq!(rt; found.as_slice(), HANDED.as_slice());
    assert_eq!(rt; summary.strays_seen, 2);
    assert_eq!(rt; summary.strays_gone, 0);
    assert_eq!(rt; summary.left.as_slice().len(), 0);
    Ok(())
}
