// Building and merging small tables with cuts. What is to stand in each is worked out by hand.
ghost use Rattle.std.specs.Prelude.{◌≡◌, ◌<◌, ◌++◌, ◌∷◌, [], false, length, slice_index_or, IfOk, if◌then◌else◌};
ghost use Rattle.sv_table_tests.specs.Merges.{chosen};

use std::alloc::Global;
use std::test::*;
use sv_merge::{build, merge};
use sv_model::{Bottom, Cuts, Items, Kept, Key, Numbered, Op, Row, Table, Value};

/// A row in short: the end that it bears, its key, and the byte that it puts; none for a delete.
type Short = (u64, u8, Option<u8>);

fn row(alloc: Global, key: u8, put: Option<u8>) -> Result<Row, Fail> {
    let op = match put {
        Some(byte) => Op::Put(Value::new(alloc, &[byte]).ok().ok_or("a value")?),
        None => Op::Delete,
    };
    Ok(Row {
        key: Key::new(alloc, &[key]).ok().ok_or("a key")?,
        op,
    })
}

fn numbered(alloc: Global, number: u64, key: u8, put: Option<u8>) -> Result<Numbered, Fail>
    ensures { IfOk result (λ n. n.number ≡ number) }
{
    Ok(Numbered {
        number,
        row: row(alloc, key, put)?,
    })
}

fn table(alloc: Global, from: u64, to: u64, bottom: Bottom, rows: &[Short]) -> Result<Table, Fail>
    ensures from { IfOk result (λ t. t.from ≡ from) }
    ensures to { IfOk result (λ t. t.to ≡ to) }
    ensures bottom { IfOk result (λ t. t.bottom ≡ bottom) }
{
    let mut all = Vec::new(alloc);
    for (end, key, put) in rows {
        all.push(Kept {
            end: *end,
            row: row(alloc, *key, *put)?,
        })?;
    }
    Ok(Table {
        from,
        to,
        bottom,
        rows: Items::from_vec(all),
    })
}

fn short(kept: &Kept) -> Short {
    let put = match &kept.row.op {
        Op::Put(value) => value.as_bytes().first().copied(),
        Op::Delete => None,
    };
    (kept.end, kept.row.key.as_bytes()[0], put)
}

/// Whether the rows are these, in this order.
fn has(table: &Table, want: &[Short]) -> bool {
    let rows = table.rows.as_slice();
    rows.len() == want.len()
        && rows
            .iter()
            .zip(want)
            .all(|(kept, want)| short(kept) == *want)
}

/// The cut too, where it is wanted.
fn with_cut(cuts: Cuts, wanted: bool, cut: u64) -> Cuts
    requires { length cuts < 64 }
    ensures { result ≡ cuts ++ (if wanted then cut ∷ [] else []) }
{
    let mut cuts = cuts;
    if wanted {
        cuts.push(cut);
    }
    cuts
}

fn uncut(last: bool) -> Bottom
    ensures last { result.last ≡ last }
    ensures cuts { result.cuts ≡ [] }
{
    Bottom {
        last,
        cuts: Cuts::none(),
    }
}

fn cut_at(cut: u64) -> Bottom
    ensures last { result.last ≡ false }
    ensures cuts { result.cuts ≡ cut ∷ [] }
{
    Bottom {
        last: false,
        cuts: with_cut(Cuts::none(), true, cut),
    }
}

/// Those of the cuts 2, 4 and 5 that are wanted.
fn cuts_of(wanted: [bool; 3]) -> Cuts
    ensures { result ≡ chosen (slice_index_or wanted 0 false) (slice_index_or wanted 1 false) (slice_index_or wanted 2 false) }
{
    let cuts = with_cut(Cuts::none(), wanted[0], 2);
    let cuts = with_cut(cuts, wanted[1], 4);
    with_cut(cuts, wanted[2], 5)
}

/// Two tables as flushes leave them, with the cuts 2 and 5, are merged:
/// 1 a = 1, 2 b = 2, 3 a deleted, 4 c = 4; 5 a = 5, 6 b deleted, 7 a deleted.
fn merged(alloc: Global, last: bool, wanted: [bool; 3]) -> Result<Table, Fail> {
    let old = [
        (4, b'a', None),
        (2, b'a', Some(1)),
        (2, b'b', Some(2)),
        (4, b'c', Some(4)),
    ];
    let new = [(7, b'a', None), (5, b'a', Some(5)), (7, b'b', None)];
    let old = table(alloc, 0, 4, cut_at(2), &old)?;
    let new = table(alloc, 4, 7, cut_at(5), &new)?;
    let bottom = Bottom {
        last,
        cuts: cuts_of(wanted),
    };
    Ok(merge(alloc, &[old, new], bottom).ok().ok_or("no memory")?)
}

#[test]
fn two(rt: HostRuntime) -> Result<(), Fail> {
    let alloc = rt.alloc();
    let cases: [(bool, [bool; 3], &[Short]); 8] = [
        (
            false,
            [false, false, false],
            &[(7, b'a', None), (7, b'b', None), (7, b'c', Some(4))],
        ),
        (true, [false, false, false], &[(7, b'c', Some(4))]),
        (
            true,
            [true, false, false],
            &[
                (7, b'a', None),
                (2, b'a', Some(1)),
                (7, b'b', None),
                (2, b'b', Some(2)),
                (7, b'c', Some(4)),
            ],
        ),
        (
            false,
            [false, true, false],
            &[
                (7, b'a', None),
                (4, b'a', None),
                (7, b'b', None),
                (4, b'b', Some(2)),
                (4, b'c', Some(4)),
            ],
        ),
        (
            true,
            [false, true, false],
            &[(7, b'b', None), (4, b'b', Some(2)), (4, b'c', Some(4))],
        ),
        (
            true,
            [false, false, true],
            &[
                (7, b'a', None),
                (5, b'a', Some(5)),
                (7, b'b', None),
                (5, b'b', Some(2)),
                (5, b'c', Some(4)),
            ],
        ),
        (
            false,
            [true, false, true],
            &[
                (7, b'a', None),
                (5, b'a', Some(5)),
                (2, b'a', Some(1)),
                (7, b'b', None),
                (2, b'b', Some(2)),
                (5, b'c', Some(4)),
            ],
        ),
        (
            true,
            [true, true, true],
            &[
                (7, b'a', None),
                (5, b'a', Some(5)),
                (4, b'a', None),
                (2, b'a', Some(1)),
                (7, b'b', None),
                (2, b'b', Some(2)),
                (4, b'c', Some(4)),
            ],
        ),
    ];
    for (last, wanted, want) in cases {
        let all = merged(alloc, last, wanted)?;
        assert_eq!(rt; (all.from, all.to, all.bottom.last), (0, 7, last));
        assert!(rt; has(&all, want));
    }
    Ok(())
}

/// A table below which nothing lies is merged with two above it.
fn stacked(alloc: Global, last: bool) -> Result<Table, Fail> {
    let oldest = table(
        alloc,
        0,
        9,
        uncut(last),
        &[(9, b'a', Some(1)), (9, b'k', Some(2))],
    )?;
    let middle = table(
        alloc,
        9,
        11,
        uncut(false),
        &[(11, b'a', None), (11, b'k', Some(3))],
    )?;
    let newest = table(
        alloc,
        11,
        13,
        uncut(false),
        &[(13, b'b', None), (13, b'k', None)],
    )?;
    let bottom = Bottom {
        last: true,
        cuts: with_cut(Cuts::none(), true, 11),
    };
    Ok(
        merge(alloc, &[oldest, middle, newest], bottom)
            .ok()
            .ok_or("no memory")?,
    )
}

#[test]
fn three(rt: HostRuntime) -> Result<(), Fail> {
    let alloc = rt.alloc();
    for last in [false, true] {
        let all = stacked(alloc, last)?;
        assert_eq!(rt; (all.from, all.to, all.bottom.last), (0, 13, true));
        assert!(rt; has(&all, &[(13, b'k', None), (11, b'k', Some(3))]));
    }
    Ok(())
}

/// The writes 11 to 15 in another order, with the cuts 12 and 13.
fn built(alloc: Global) -> Result<Table, Fail> {
    let rows = [
        numbered(alloc, 14, b'a', Some(4))?,
        numbered(alloc, 12, b'b', Some(2))?,
        numbered(alloc, 13, b'a', None)?,
        numbered(alloc, 11, b'a', Some(1))?,
        numbered(alloc, 15, b'c', None)?,
    ];
    let bottom = Bottom {
        last: false,
        cuts: with_cut(with_cut(Cuts::none(), true, 12), true, 13),
    };
    Ok(build(alloc, &rows, 10, 15, bottom).ok().ok_or("no memory")?)
}

#[test]
fn five_writes(rt: HostRuntime) -> Result<(), Fail> {
    let all = built(rt.alloc())?;
    assert_eq!(rt; (all.from, all.to, all.bottom.last), (10, 15, false));
    let want = [
        (15, b'a', Some(4)),
        (13, b'a', None),
        (12, b'a', Some(1)),
        (12, b'b', Some(2)),
        (15, b'c', None),
    ];
    assert!(rt; has(&all, &want));
    Ok(())
}
