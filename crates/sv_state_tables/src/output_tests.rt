// Flushes and compactions under way, and those that fail.
use crate::tables::{expect, expect_closed};
use std::rt::HostRuntime;
use std::test::Fail;
use sv_model::Refusal::{Busy, Dropped, NothingToFlush};
use sv_state_bench::Answer::{Count, Family, File, Nothing, Numbers, Refused, Super, Totals};
use sv_state_bench::Call::{By, Current, End, Files, GiveUp, Gone, Left, Made, Purge};
use sv_state_bench::Deed::{BeginCompaction, BeginFlush, Compact, Create, Drop, Flush, Put};
use sv_state_bench::{Answer, Bench, Call};

const BUSY: [(Call, Answer); 11] = [
    (By(1, "default", BeginFlush), Refused(NothingToFlush)),
    (By(1, "default", Put("a")), Count(1)),
    (By(1, "default", BeginFlush), File(1, 0, 1)),
    (By(1, "default", BeginFlush), Refused(Busy { number: 1 })),
    (
        By(1, "default", BeginCompaction),
        Refused(Busy { number: 1 }),
    ),
    (Current(0), Super(2, 1)),
    (End(0), Super(3, 0)),
    (End(0), Nothing),
    (GiveUp(0), Nothing),
    (By(1, "default", BeginFlush), Refused(NothingToFlush)),
    (Files(0), Numbers([1, 0, 0, 0])),
];

#[test]
fn has_one_output_at_a_time(rt: HostRuntime) -> Result<(), Fail> {
    let mut bench = Bench::new(rt.alloc(), 1)?;
    expect(&rt, &mut bench, &BUSY);
    Ok(())
}

// The file of a compaction is not written.
const FAILED: [(Call, Answer); 12] = [
    (By(1, "default", Put("a")), Count(1)),
    (By(1, "default", Flush), File(1, 0, 1)),
    (By(1, "default", BeginCompaction), File(2, 0, 1)),
    (Left, Numbers([0, 0, 0, 0])),
    (GiveUp(1), Count(2)),
    (Files(0), Numbers([1, 0, 0, 0])),
    (Left, Numbers([2, 0, 0, 0])),
    (Made, Totals(3, 2, 2)),
    (Purge(2), Numbers([2, 0, 0, 0])),
    (Left, Numbers([2, 0, 0, 0])),
    (Purge(0), Numbers([2, 0, 0, 0])),
    (Gone, Totals(2, 1, 1)),
];

#[test]
fn gives_up_what_failed(rt: HostRuntime) -> Result<(), Fail> {
    let mut bench = Bench::new(rt.alloc(), 1)?;
    expect(&rt, &mut bench, &FAILED);
    expect_closed(&rt, bench, (3, 2, 2), (3, 2, 1))
}

// The first removal of file 1 fails.
const KEPT: [(Call, Answer); 9] = [
    (By(1, "default", Put("a")), Count(1)),
    (By(1, "default", Flush), File(1, 0, 1)),
    (By(1, "default", Compact), File(2, 0, 1)),
    (Purge(1), Numbers([1, 0, 0, 0])),
    (Left, Numbers([1, 0, 0, 0])),
    (Purge(0), Numbers([1, 0, 0, 0])),
    (Left, Numbers([0, 0, 0, 0])),
    (Made, Totals(4, 2, 2)),
    (Gone, Totals(3, 1, 1)),
];

#[test]
fn removes_again_what_stayed(rt: HostRuntime) -> Result<(), Fail> {
    let mut bench = Bench::new(rt.alloc(), 1)?;
    expect(&rt, &mut bench, &KEPT);
    expect_closed(&rt, bench, (4, 2, 2), (4, 2, 1))
}

// A family is dropped while its flush is under way.
const LATE: [(Call, Answer); 9] = [
    (By(1, "a", Create), Family(1)),
    (By(1, "a", Put("k")), Count(1)),
    (By(1, "a", BeginFlush), File(1, 0, 1)),
    (By(1, "a", Drop), Family(1)),
    (End(0), Refused(Dropped)),
    (End(0), Nothing),
    (Left, Numbers([1, 0, 0, 0])),
    (Purge(0), Numbers([1, 0, 0, 0])),
    (Gone, Totals(1, 0, 1)),
];

#[test]
fn ends_nothing_for_a_dropped_family(rt: HostRuntime) -> Result<(), Fail> {
    let mut bench = Bench::new(rt.alloc(), 1)?;
    expect(&rt, &mut bench, &LATE);
    Ok(())
}

// A number is not handed out while a lower one is captured.
const BOUND: [(Call, Answer); 12] = [
    (By(1, "a", Create), Family(1)),
    (By(1, "default", Put("k")), Count(1)),
    (By(1, "default", Flush), File(1, 0, 1)),
    (By(1, "a", Put("k")), Count(1)),
    (By(1, "a", BeginFlush), File(2, 0, 1)),
    (By(1, "default", Compact), File(3, 0, 1)),
    (
        By(1, "default", BeginCompaction),
        Refused(sv_model::Refusal::NothingToCompact),
    ),
    (Purge(0), Numbers([1, 0, 0, 0])),
    (By(1, "default", Put("k")), Count(2)),
    (By(1, "default", Flush), File(4, 1, 2)),
    (By(1, "default", Compact), File(5, 0, 2)),
    (Purge(0), Numbers([0, 0, 0, 0])),
];

#[test]
fn keeps_numbers_above_a_captured_one(rt: HostRuntime) -> Result<(), Fail> {
    let mut bench = Bench::new(rt.alloc(), 1)?;
    expect(&rt, &mut bench, &BOUND);
    assert_eq!(rt; bench.answer(End(1)), Super(10, 1));
    assert_eq!(rt; bench.answer(Purge(0)), Numbers([3, 4, 0, 0]));
    Ok(())
}
