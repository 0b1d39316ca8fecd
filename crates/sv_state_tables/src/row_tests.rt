// Longer tables: what stalls, what is full, and what the report counts after a close.
use crate::tables::{expect, expect_closed};
use std::process::Abort;
use std::rt::HostRuntime;
use std::test::Fail;
use sv_model::OptionName::{MaxImmutable, MemtableRows};
use sv_model::Refusal::{
    BadOption, NoSnapshot, NothingToCompact, Stalled, TooManyLive, TooManyMemtables,
};
use sv_state_bench::Answer::{Count, Done, File, Numbers, Refused, Super, Totals};
use sv_state_bench::Call::{
    By, Clean, Current, Cut, Cuts, End, Gone, Keep, Last, Made, Options, Snap, Unsnap,
};
use sv_state_bench::Deed::{BeginCompaction, BeginFlush, Compact, Flush, Put, Set};
use sv_state_bench::{Answer, Bench, Call};

const STALLED: [(Call, Answer); 12] = [
    (By(1, "default", Set(MemtableRows, 1)), Super(2, 1)),
    (By(1, "default", Set(MaxImmutable, 1)), Super(3, 0)),
    (By(1, "default", Put("a")), Count(1)),
    (By(1, "default", Put("b")), Count(2)),
    (By(1, "default", Put("c")), Refused(Stalled)),
    (Current(0), Super(4, 1)),
    (By(1, "default", Flush), File(1, 0, 2)),
    (By(1, "default", Put("c")), Count(3)),
    (
        By(1, "default", Set(MemtableRows, 0)),
        Refused(BadOption {
            value: 0,
            least: 1,
            greatest: 65536,
        }),
    ),
    (Last(0), Numbers([1, 0, 0, 0])),
    (Made, Totals(6, 3, 1)),
    (Gone, Totals(5, 2, 0)),
];

#[test]
fn stalls_where_the_list_is_full(rt: HostRuntime) -> Result<(), Fail> {
    let mut bench = Bench::new(rt.alloc(), 1)?;
    expect(&rt, &mut bench, &STALLED);
    expect_closed(&rt, bench, (6, 3, 1), (6, 3, 0))
}

const SET: Call = By(0, "default", Set(MaxImmutable, 2));

// Each SuperVersion before the current one waits, as for a pin.
const FULL: [(Call, Answer); 9] = [
    (Current(0), Super(256, 255)),
    (SET, Refused(TooManyLive)),
    (Current(0), Super(256, 255)),
    (Options(0), Answer::Options(1024, 2)),
    (Made, Totals(256, 1, 0)),
    (Gone, Totals(0, 0, 0)),
    (Clean(0), Count(0)),
    (SET, Super(257, 0)),
    (Gone, Totals(1, 0, 0)),
];

// One SuperVersion more, at this place.
fn expect_set(rt: &impl Abort, bench: &mut Bench, place: u8) {
    let serial = place as u32 + 1;
    assert_eq!(rt; bench.answer(SET), Super(serial, place));
}

#[test]
fn makes_none_while_all_places_are_taken(rt: HostRuntime) -> Result<(), Fail> {
    let mut bench = Bench::new(rt.alloc(), 1)?;
    bench.keep(true);
    for place in 1..=255 {
        expect_set(&rt, &mut bench, place);
    }
    expect(&rt, &mut bench, &FULL);
    Ok(())
}

// The SuperVersion before each switch waits, as for a pin, and keeps its memtable.
const MANY: [(Call, Answer); 7] = [
    (Made, Totals(127, 64, 63)),
    (Gone, Totals(63, 0, 0)),
    (By(0, "default", Put("k")), Count(64)),
    (By(0, "default", Flush), Refused(TooManyMemtables)),
    (Made, Totals(127, 64, 63)),
    (Clean(0), Count(1)),
    (By(0, "default", Flush), File(64, 63, 64)),
];

// A row more after so many, and its flush. What waits since the flush's end is cleaned up.
fn expect_flushed(rt: &impl Abort, bench: &mut Bench, rows: u8) {
    let (before, place) = (rows as u64, 2 * rows as usize + 1);
    let after = before + 1;
    let table = [
        (By(0, "default", Put("k")), Count(after)),
        (By(0, "default", Flush), File(after, before, after)),
        (Clean(place), Count(0)),
    ];
    expect(rt, bench, &table);
}

#[test]
fn switches_while_a_cell_is_free(rt: HostRuntime) -> Result<(), Fail> {
    let mut bench = Bench::new(rt.alloc(), 1)?;
    bench.keep(true);
    for rows in 0..=62 {
        expect_flushed(&rt, &mut bench, rows);
    }
    expect(&rt, &mut bench, &MANY);
    Ok(())
}

// A file keeps a row for a snapshot until a compaction after its end.
const KEPT: [(Call, Answer); 18] = [
    (By(1, "default", Put("a")), Count(1)),
    (Snap, Count(1)),
    (By(1, "default", Put("a")), Count(2)),
    (By(1, "default", Put("a")), Count(3)),
    (By(1, "default", BeginFlush), File(1, 0, 3)),
    (Cuts(0), Count(1)),
    (End(0), Super(3, 0)),
    (Cut(1, 0), Count(1)),
    (By(1, "default", BeginCompaction), File(2, 0, 3)),
    (Cuts(1), Count(1)),
    (End(1), Super(4, 1)),
    (By(1, "default", Compact), Refused(NothingToCompact)),
    (Unsnap(1), Done),
    (Cut(1, 0), Refused(NoSnapshot)),
    (By(1, "default", BeginCompaction), File(3, 0, 3)),
    (Cuts(2), Count(0)),
    (End(2), Super(5, 0)),
    (Last(0), Numbers([3, 0, 0, 0])),
];

#[test]
fn keeps_what_a_snapshot_needs(rt: HostRuntime) -> Result<(), Fail> {
    let mut bench = Bench::new(rt.alloc(), 1)?;
    expect(&rt, &mut bench, &KEPT);
    expect_closed(&rt, bench, (5, 2, 3), (5, 2, 2))
}
