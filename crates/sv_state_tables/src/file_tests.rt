// Files that become Obsolete, and when they go.
use crate::tables::{expect, expect_closed};
use std::rt::HostRuntime;
use std::test::Fail;
use sv_model::Refusal::{Disabled, NoHold, NothingToCompact};
use sv_state_bench::Answer::{Count, Done, File, Nothing, Numbers, Refused, Super, Totals};
use sv_state_bench::Call::{
    By, Clean, Current, Files, Gone, Hold, Keep, Live, Made, Purge, Unhold,
};
use sv_state_bench::Deed::{Compact, Flush, Put};
use sv_state_bench::{Answer, Bench, Call};

// The SuperVersion before the compaction waits, as for a pin.
const PINNED: [(Call, Answer); 18] = [
    (By(1, "default", Put("a")), Count(1)),
    (By(1, "default", Flush), File(1, 0, 1)),
    (By(1, "default", Put("a")), Count(2)),
    (By(1, "default", Flush), File(2, 1, 2)),
    (Current(0), Super(5, 0)),
    (Keep(true), Done),
    (By(1, "default", Compact), File(3, 0, 2)),
    (Current(0), Super(6, 1)),
    (Files(0), Numbers([3, 0, 0, 0])),
    (Purge(0), Numbers([0, 0, 0, 0])),
    (Made, Totals(6, 3, 3)),
    (Gone, Totals(4, 2, 0)),
    (Clean(0), Count(0)),
    (Clean(0), Nothing),
    (Purge(0), Numbers([1, 2, 0, 0])),
    (Purge(0), Numbers([0, 0, 0, 0])),
    (Made, Totals(6, 3, 3)),
    (Gone, Totals(5, 2, 2)),
];

#[test]
fn keeps_the_files_of_what_waits(rt: HostRuntime) -> Result<(), Fail> {
    let mut bench = Bench::new(rt.alloc(), 1)?;
    expect(&rt, &mut bench, &PINNED);
    expect_closed(&rt, bench, (6, 3, 3), (6, 3, 2))
}

const HELD: [(Call, Answer); 16] = [
    (By(1, "default", Put("a")), Count(1)),
    (By(1, "default", Flush), File(1, 0, 1)),
    (By(1, "default", Put("b")), Count(2)),
    (By(1, "default", Flush), File(2, 1, 2)),
    (Live(1), Refused(NoHold)),
    (Hold(1), Count(1)),
    (Live(1), Numbers([1, 2, 0, 0])),
    (By(1, "default", Compact), File(3, 0, 2)),
    (By(1, "default", Compact), Refused(NothingToCompact)),
    (Live(1), Numbers([3, 0, 0, 0])),
    (Live(2), Refused(NoHold)),
    (Purge(0), Refused(Disabled { count: 1 })),
    (Unhold(1), Count(0)),
    (Unhold(1), Refused(NoHold)),
    (Purge(0), Numbers([1, 2, 0, 0])),
    (Gone, Totals(5, 2, 2)),
];

#[test]
fn removes_nothing_while_a_hold_stands(rt: HostRuntime) -> Result<(), Fail> {
    let mut bench = Bench::new(rt.alloc(), 1)?;
    expect(&rt, &mut bench, &HELD);
    Ok(())
}
