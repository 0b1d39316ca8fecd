// Whole reports of scripts with snapshots and compactions, and the bytes of the file that each leaves.
use crate::directories::{empty_dir, expect_file, expect_names};
use crate::runs::expect_over;
use std::test::Fail as Failure;

// A put of `1` under the key `a`, from 0 to 1, with the range of its keys.
const LAST_TABLE: &[u8] =
    b"SVTABLE2\0\0\0\0\0\0\0\0\x01\0\0\0\0\0\0\0\x01\x01\0\0\0\x01a\x01\x01\x001\x01a\x01a";

// No row, from 0 to 1.
const NO_ROW: &[u8] = b"SVTABLE2\0\0\0\0\0\0\0\0\x01\0\0\0\0\0\0\0\x01\0\0\0\0";

// No row, from 0 to 3.
const NO_ROW_OF_THREE: &[u8] = b"SVTABLE2\0\0\0\0\0\0\0\0\x03\0\0\0\0\0\0\0\x01\0\0\0\0";

// Puts of `2` and of `1` under the key `a`, from 0 to 2, with the cut 1 between them.
const CUT_TABLE: &[u8] =
    b"SVTABLE3\0\0\0\0\0\0\0\0\x02\0\0\0\0\0\0\0\0\x01\x01\0\0\0\0\0\0\0\x02\0\0\0\x01a\x01\x01\x01\x002\x01a\0\x01\x01\x001";

// Each script with its report, the number of the one file left, and the bytes of that.
const ROWS: [(&str, &str, u64, &[u8]); 4] = [
    (
        "1 put default a 1
1 snap
1 put default a 2
1 delete default a
1 flush default
1 gets 1 default a
1 compact default
1 gets 1 default a
1 get default a
1 compact default
1 unsnap 1
1 gets 1 default a
1 compact default
",
        "lane 1
1 ok put 1
2 ok snap 1 at 1
3 ok put 2
4 ok delete 3
5 ok flush file 1 from 0 to 3
6 found 1 cut 1 sv 3
7 ok compact file 2 from 0 to 3
8 found 1 cut 1 sv 4
9 absent cut 3 sv 4
10 refused 24 NothingToCompact
11 ok unsnap
12 refused 27 NoSnapshot
13 ok compact file 3 from 0 to 3
lane 1 uses 0 misses 0 swept 0
family 0 default live writes 3 files 3
made superversions 5 memtables 2 files 3
gone superversions 5 memtables 2 files 2
strays seen 0 gone 0
end clean
",
        3,
        NO_ROW_OF_THREE,
    ),
    (
        "1 put default a 1\n1 snap\n1 put default a 2\n1 flush default\n",
        "lane 1
1 ok put 1
2 ok snap 1 at 1
3 ok put 2
4 ok flush file 1 from 0 to 2
lane 1 uses 0 misses 0 swept 0
family 0 default live writes 2 files 1
made superversions 3 memtables 2 files 1
gone superversions 3 memtables 2 files 0
strays seen 0 gone 0
end clean
",
        1,
        CUT_TABLE,
    ),
    (
        "1 put default a 1\n1 flush default\n1 compact default\n",
        "lane 1
1 ok put 1
2 ok flush file 1 from 0 to 1
3 ok compact file 2 from 0 to 1
lane 1 uses 0 misses 0 swept 0
family 0 default live writes 1 files 2
made superversions 4 memtables 2 files 2
gone superversions 4 memtables 2 files 1
strays seen 0 gone 0
end clean
",
        2,
        LAST_TABLE,
    ),
    (
        "1 delete default a\n1 flush default\n1 compact default\n",
        "lane 1
1 ok delete 1
2 ok flush file 1 from 0 to 1
3 ok compact file 2 from 0 to 1
lane 1 uses 0 misses 0 swept 0
family 0 default live writes 1 files 2
made superversions 4 memtables 2 files 2
gone superversions 4 memtables 2 files 1
strays seen 0 gone 0
end clean
",
        2,
        NO_ROW,
    ),
];

#[test]
fn gives_each_report_and_file(rt: HostRuntime) -> Result<(), Failure> {
    let alloc = rt.alloc();
    assert_eq!(rt; CUT_TABLE.len(), 52);
    assert_eq!(rt; LAST_TABLE.len(), 39);
    assert_eq!(rt; NO_ROW.len(), 29);
    for (script, report, number, bytes) in ROWS {
        let mut dir = expect_over(&rt, alloc, script, empty_dir(alloc)?, 0, report)?;
        let name = format!(in alloc; "00000{number}.sst ")?;
        expect_names(&rt, alloc, &mut dir, name.as_str())?;
        expect_file(&rt, &mut dir, number, bytes)?;
    }
    Ok(())
}
