// The state beside the plain one.
use crate::draws::Draws;
use crate::plain::Plain;
use std::process::Abort;
use std::rt::HostRuntime;
use std::test::Fail;
use sv_state_bench::Call::{Current, Holds, Last, Next, Options};
use sv_state_bench::{Bench, Call};

const CALLS: u64 = 2000;

// Both answer the call alike.
fn expect_same(rt: &impl Abort, bench: &mut Bench, plain: &mut Plain, call: Call) {
    let wanted = plain.answer(call);
    let answer = bench.answer(call);
    assert_eq!(rt; answer, wanted, "{call:?}");
}

// Both have the same numbers of the report.
fn expect_counts(rt: &impl Abort, bench: &Bench, plain: &Plain) -> Result<(), Fail> {
    let summary = bench.summary()?;
    let agrees = plain.agrees(&summary)?;
    assert!(rt; agrees);
    Ok(())
}

// Both tell the same of the family.
fn expect_family(rt: &impl Abort, bench: &mut Bench, plain: &mut Plain, family: u8) {
    expect_same(rt, bench, plain, Current(family));
    expect_same(rt, bench, plain, Options(family));
    expect_same(rt, bench, plain, Last(family));
}

// Both tell the same of themselves.
fn expect_told(rt: &impl Abort, bench: &mut Bench, plain: &mut Plain) {
    for family in 0..16 {
        expect_family(rt, bench, plain, family);
    }
    expect_same(rt, bench, plain, Next);
    expect_same(rt, bench, plain, Holds);
}

// One call more, of both.
fn step(
    rt: &impl Abort,
    bench: &mut Bench,
    plain: &mut Plain,
    draws: &mut Draws,
) -> Result<(), Fail> {
    let call = draws.call(plain);
    expect_same(rt, bench, plain, call);
    expect_counts(rt, bench, plain)?;
    expect_told(rt, bench, plain);
    Ok(())
}

#[test]
fn answers_as_a_plain_state(rt: HostRuntime) -> Result<(), Fail> {
    let mut bench = Bench::new(rt.alloc(), 1)?;
    let mut plain = Plain::new(rt.alloc())?;
    let mut draws = Draws::new(88_172_645_463_325_252);
    for _ in 0..CALLS {
        step(&rt, &mut bench, &mut plain, &mut draws)?;
    }
    assert!(rt; plain.gone_files() > 40);
    Ok(())
}
