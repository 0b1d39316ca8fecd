// Whole reports of scripts with families, options, holds, compactions, purges and scans, written out by hand.
use crate::directories::{expect_names, failing_dir};
use crate::runs::{expect_over, expect_run};
use std::test::Fail as Failure;
use sv_dir::How;

// Each script with its report.
const ROWS: [(&str, &str); 6] = [
    (
        "1 flush default\n",
        "lane 1
1 refused 16 NothingToFlush
lane 1 uses 0 misses 0 swept 0
family 0 default live writes 0 files none
made superversions 1 memtables 1 files 0
gone superversions 1 memtables 1 files 0
strays seen 0 gone 0
end clean
",
    ),
    (
        "1 put default a 1
1 flush default
1 put default b 2
1 flush default
1 live
1 hold
1 live
1 compact default
1 compact default
1 purge
1 unhold
1 purge
",
        "lane 1
1 ok put 1
2 ok flush file 1 from 0 to 1
3 ok put 2
4 ok flush file 2 from 1 to 2
5 refused 13 NoHold
6 ok hold 1
7 ok live 1 2
8 ok compact file 3 from 0 to 2
9 refused 24 NothingToCompact
10 refused 14 Disabled 1
11 ok unhold 0
12 ok purge 1 2
lane 1 uses 0 misses 0 swept 0
family 0 default live writes 2 files 3
made superversions 6 memtables 3 files 3
gone superversions 6 memtables 3 files 2
strays seen 0 gone 0
end clean
",
    ),
    (
        "1 hold\n1 hold\n1 unhold\n1 purge\n1 unhold\n1 unhold\n1 purge\n",
        "lane 1
1 ok hold 1
2 ok hold 2
3 ok unhold 1
4 refused 14 Disabled 1
5 ok unhold 0
6 refused 13 NoHold
7 ok purge
lane 1 uses 0 misses 0 swept 0
family 0 default live writes 0 files none
made superversions 1 memtables 1 files 0
gone superversions 1 memtables 1 files 0
strays seen 0 gone 0
end clean
",
    ),
    (
        "1 drop default\n1 release default\n",
        "lane 1
1 refused 10 IsDefault
2 refused 10 IsDefault
lane 1 uses 0 misses 0 swept 0
family 0 default live writes 0 files none
made superversions 1 memtables 1 files 0
gone superversions 1 memtables 1 files 0
strays seen 0 gone 0
end clean
",
    ),
    (
        "1 set default memtable_rows 1
1 set default max_immutable 1
1 put default a 1
1 put default b 2
1 put default c 3
1 get default a
1 flush default
1 put default c 3
1 set default memtable_rows 0
",
        "lane 1
1 ok set sv 2
2 ok set sv 3
3 ok put 1
4 ok put 2
5 refused 15 Stalled
6 found 1 cut 2 sv 4
7 ok flush file 1 from 0 to 2
8 ok put 3
9 refused 12 BadOption 0 1 65536
lane 1 uses 0 misses 0 swept 0
family 0 default live writes 3 files 1
made superversions 6 memtables 3 files 1
gone superversions 6 memtables 3 files 0
strays seen 0 gone 0
end clean
",
    ),
    (
        "1 set default max_immutable 9
1 set default max_immutable 0
1 set default memtable_rows 65537
1 set cold memtable_rows 0
1 set cold memtable_rows 1
1 set default memtable_rows 65536
1 set default max_immutable 8
1 get default a
",
        "lane 1
1 refused 12 BadOption 9 1 8
2 refused 12 BadOption 0 1 8
3 refused 12 BadOption 65537 1 65536
4 refused 12 BadOption 0 1 65536
5 refused 7 NoFamily
6 ok set sv 2
7 ok set sv 3
8 absent cut 0 sv 3
lane 1 uses 0 misses 0 swept 0
family 0 default live writes 0 files none
made superversions 3 memtables 1 files 0
gone superversions 3 memtables 1 files 0
strays seen 0 gone 0
end clean
",
    ),
];

#[test]
fn gives_each_report(rt: HostRuntime) -> Result<(), Failure> {
    let alloc = rt.alloc();
    for (script, report) in ROWS {
        expect_run(&rt, alloc, script.as_bytes(), 64, 0, report)?;
    }
    Ok(())
}

// Each script over an empty directory of which these calls fail, with its report, its status and the files left.
const FAULTS: [(&[(u64, How)], &str, &str, u8, &str); 6] = [
    (
        &[(2, How::Half)],
        "1 put default a 1\n1 flush default\n1 get default a\n1 purge\n1 flush default\n1 get default a\n",
        "lane 1
1 ok put 1
2 refused 21 DirFault 1
3 found 1 cut 1 sv 2
4 ok purge 1
5 ok flush file 2 from 0 to 1
6 found 1 cut 1 sv 3
lane 1 uses 0 misses 0 swept 0
family 0 default live writes 1 files 2
made superversions 3 memtables 2 files 2
gone superversions 3 memtables 2 files 1
strays seen 0 gone 0
end clean
",
        0,
        "000002.sst ",
    ),
    (
        &[(5, How::After)],
        "1 put default a 1\n1 flush default\n1 compact default\n1 purge\n1 purge\n",
        "lane 1
1 ok put 1
2 ok flush file 1 from 0 to 1
3 ok compact file 2 from 0 to 1
4 refused 21 DirFault 1
5 ok purge 1
lane 1 uses 0 misses 0 swept 0
family 0 default live writes 1 files 2
made superversions 4 memtables 2 files 2
gone superversions 4 memtables 2 files 1
strays seen 0 gone 0
end clean
",
        0,
        "000002.sst ",
    ),
    (
        &[(4, How::Before)],
        "1 put default a 1\n1 flush default\n1 compact default\n",
        "lane 1
1 ok put 1
2 ok flush file 1 from 0 to 1
3 refused 21 DirFault 2
lane 1 uses 0 misses 0 swept 0
family 0 default live writes 1 files 1
made superversions 3 memtables 2 files 2
gone superversions 3 memtables 2 files 1
strays seen 0 gone 0
end clean
",
        0,
        "000001.sst ",
    ),
    (
        &[(4, How::Before), (5, How::Before)],
        "1 put default a 1\n1 flush default\n1 compact default\n",
        "lane 1
1 ok put 1
2 ok flush file 1 from 0 to 1
3 refused 21 DirFault 2
lane 1 uses 0 misses 0 swept 0
family 0 default live writes 1 files 1
made superversions 3 memtables 2 files 2
gone superversions 3 memtables 2 files 0
strays seen 0 gone 0
end left 2
",
        7,
        "000001.sst ",
    ),
    (
        &[(2, How::Before)],
        "1 scan\n1 scan\n",
        "lane 1
1 refused 21 DirFault 0
2 ok scan
lane 1 uses 0 misses 0 swept 0
family 0 default live writes 0 files none
made superversions 1 memtables 1 files 0
gone superversions 1 memtables 1 files 0
strays seen 0 gone 0
end clean
",
        0,
        "",
    ),
    (
        &[(4, How::Before)],
        "1 put default a 1\n1 flush default\n1 compact default\n1 hold\n1 scan\n1 unhold\n1 scan\n",
        "lane 1
1 ok put 1
2 ok flush file 1 from 0 to 1
3 refused 21 DirFault 2
4 ok hold 1
5 refused 14 Disabled 1
6 ok unhold 0
7 ok scan 2
lane 1 uses 0 misses 0 swept 0
family 0 default live writes 1 files 1
made superversions 3 memtables 2 files 2
gone superversions 3 memtables 2 files 1
strays seen 0 gone 0
end clean
",
        0,
        "000001.sst ",
    ),
];

#[test]
fn gives_each_report_where_calls_fail(rt: HostRuntime) -> Result<(), Failure> {
    let alloc = rt.alloc();
    for (fails, script, report, code, names) in FAULTS {
        let dir = failing_dir(alloc, fails)?;
        let mut dir = expect_over(&rt, alloc, script, dir, code, report)?;
        expect_names(&rt, alloc, &mut dir, names)?;
    }
    Ok(())
}
