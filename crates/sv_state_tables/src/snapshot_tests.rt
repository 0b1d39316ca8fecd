// Snapshots: where they read, and what files keep for them.
use crate::tables::expect;
use std::rt::HostRuntime;
use std::test::Fail;
use sv_model::Refusal::{NoSnapshot, NothingToCompact, TooManySnapshots};
use sv_state_bench::Answer::{Count, Done, Family, File, Nothing, Refused, Super};
use sv_state_bench::Call::{By, Cut, Cuts, End, Snap, Unsnap};
use sv_state_bench::Deed::{BeginCompaction, BeginFlush, Compact, Create, Flush, Put};
use sv_state_bench::{Answer, Bench, Call};

const CUTS: [(Call, Answer); 20] = [
    (By(1, "default", Put("a")), Count(1)),
    (Snap, Count(1)),
    (By(1, "other", Create), Family(1)),
    (By(1, "other", Put("a")), Count(1)),
    (By(1, "default", Put("a")), Count(2)),
    (Snap, Count(2)),
    (Cut(1, 0), Count(1)),
    (Cut(1, 1), Count(0)),
    (Cut(2, 0), Count(2)),
    (Cut(2, 1), Count(1)),
    (Cut(3, 0), Refused(NoSnapshot)),
    (By(1, "default", BeginFlush), File(1, 0, 2)),
    (Cuts(0), Count(1)),
    (End(0), Super(4, 0)),
    (Unsnap(2), Done),
    (Unsnap(2), Refused(NoSnapshot)),
    (Cut(2, 0), Refused(NoSnapshot)),
    (Snap, Count(3)),
    (Unsnap(9), Refused(NoSnapshot)),
    (Cut(3, 0), Count(2)),
];

#[test]
fn reads_at_its_place(rt: HostRuntime) -> Result<(), Fail> {
    let mut bench = Bench::new(rt.alloc(), 1)?;
    expect(&rt, &mut bench, &CUTS);
    Ok(())
}

// A compaction is due again once a snapshot that its file keeps something for has ended.
const ENDED: [(Call, Answer); 13] = [
    (By(1, "default", Put("a")), Count(1)),
    (Snap, Count(1)),
    (By(1, "default", Put("a")), Count(2)),
    (By(1, "default", Flush), File(1, 0, 2)),
    (By(1, "default", BeginCompaction), File(2, 0, 2)),
    (Cuts(1), Count(1)),
    (End(1), Super(4, 1)),
    (By(1, "default", Compact), Refused(NothingToCompact)),
    (Unsnap(1), Done),
    (By(1, "default", BeginCompaction), File(3, 0, 2)),
    (Cuts(2), Count(0)),
    (End(2), Super(5, 0)),
    (By(1, "default", Compact), Refused(NothingToCompact)),
];

#[test]
fn compacts_again_after_its_end(rt: HostRuntime) -> Result<(), Fail> {
    let mut bench = Bench::new(rt.alloc(), 1)?;
    expect(&rt, &mut bench, &ENDED);
    Ok(())
}

#[test]
fn has_sixty_four_at_once(rt: HostRuntime) -> Result<(), Fail> {
    let mut bench = Bench::new(rt.alloc(), 1)?;
    for n in 1..=64 {
        assert_eq!(rt; bench.answer(Snap), Count(n));
    }
    expect(
        &rt,
        &mut bench,
        &[
            (Snap, Refused(TooManySnapshots)),
            (Unsnap(7), Done),
            (Snap, Count(65)),
            (Cuts(0), Nothing),
        ],
    );
    Ok(())
}
