// Tables of calls with their answers.
use std::process::Abort;
use std::test::Fail;
use sv_model::Totals;
use sv_state_bench::{Answer, Bench, Call};

/// Each call of the table, in turn, must have its answer.
pub fn expect(rt: &impl Abort, bench: &mut Bench, table: &[(Call, Answer)]) {
    for (call, answer) in table {
        assert_eq!(rt; bench.answer(*call), *answer, "{call:?}");
    }
}

pub fn totals(counts: (u64, u64, u64)) -> Totals {
    let (superversions, memtables, files) = counts;
    Totals {
        superversions,
        memtables,
        files,
    }
}

/// The close of the bench must count so many SuperVersions, memtables and files as made and as gone, and leave none.
pub fn expect_closed(
    rt: &impl Abort,
    bench: Bench,
    made: (u64, u64, u64),
    gone: (u64, u64, u64),
) -> Result<(), Fail> {
    let summary = bench.close()?;
    assert_eq!(rt; summary.made, totals(made));
    assert_eq!(rt; summary.gone, totals(gone));
    assert_eq!(rt; summary.left.as_slice().len(), 0);
    Ok(())
}
