// A script with flushes, a compaction, a purge and a read of a file, of whose calls of the directory each fails in
// turn, in each way.
use crate::directories::{expect_names, failing_dir};
use crate::runs::expect_over;
use std::test::Fail as Failure;
use sv_dir::How;

const HOWS: [How; 3] = [How::Before, How::Half, How::After];

// It lists, puts files 1 and 2, reads both, puts file 3, removes the first two, and reads the third.
const SCRIPT: &str = "1 put default a 1
1 flush default
1 put default b 2
1 flush default
1 compact default
1 purge
1 get default a
";

// The call that fails, at the end none; the replies; the family's files; the SuperVersions made, the files that are
// gone, and those left. Three memtables and three files are made in each.
const FAULTS: [(u64, &str, &str, u64, u64, &str); 9] = [
    (
        2,
        "1 ok put 1
2 refused 21 DirFault 1
3 ok put 2
4 ok flush file 2 from 0 to 2
5 ok compact file 3 from 0 to 2
6 ok purge 1 2
7 found 1 cut 2 sv 5
",
        "3",
        5,
        2,
        "000003.sst ",
    ),
    (
        3,
        "1 ok put 1
2 ok flush file 1 from 0 to 1
3 ok put 2
4 refused 21 DirFault 2
5 ok compact file 3 from 0 to 1
6 ok purge 1 2
7 found 1 cut 2 sv 5
",
        "3",
        5,
        2,
        "000003.sst ",
    ),
    (
        4,
        "1 ok put 1
2 ok flush file 1 from 0 to 1
3 ok put 2
4 ok flush file 2 from 1 to 2
5 refused 21 DirFault 1
6 ok purge 3
7 found 1 cut 2 sv 5
",
        "1 2",
        5,
        1,
        "000001.sst 000002.sst ",
    ),
    (
        5,
        "1 ok put 1
2 ok flush file 1 from 0 to 1
3 ok put 2
4 ok flush file 2 from 1 to 2
5 refused 21 DirFault 2
6 ok purge 3
7 found 1 cut 2 sv 5
",
        "1 2",
        5,
        1,
        "000001.sst 000002.sst ",
    ),
    (
        6,
        "1 ok put 1
2 ok flush file 1 from 0 to 1
3 ok put 2
4 ok flush file 2 from 1 to 2
5 refused 21 DirFault 3
6 ok purge 3
7 found 1 cut 2 sv 5
",
        "1 2",
        5,
        1,
        "000001.sst 000002.sst ",
    ),
    (
        7,
        "1 ok put 1
2 ok flush file 1 from 0 to 1
3 ok put 2
4 ok flush file 2 from 1 to 2
5 ok compact file 3 from 0 to 2
6 refused 21 DirFault 1
7 found 1 cut 2 sv 6
",
        "3",
        6,
        2,
        "000003.sst ",
    ),
    (
        8,
        "1 ok put 1
2 ok flush file 1 from 0 to 1
3 ok put 2
4 ok flush file 2 from 1 to 2
5 ok compact file 3 from 0 to 2
6 refused 21 DirFault 2
7 found 1 cut 2 sv 6
",
        "3",
        6,
        2,
        "000003.sst ",
    ),
    (
        9,
        "1 ok put 1
2 ok flush file 1 from 0 to 1
3 ok put 2
4 ok flush file 2 from 1 to 2
5 ok compact file 3 from 0 to 2
6 ok purge 1 2
7 refused 21 DirFault 3
",
        "3",
        6,
        2,
        "000003.sst ",
    ),
    (
        99,
        "1 ok put 1
2 ok flush file 1 from 0 to 1
3 ok put 2
4 ok flush file 2 from 1 to 2
5 ok compact file 3 from 0 to 2
6 ok purge 1 2
7 found 1 cut 2 sv 6
",
        "3",
        6,
        2,
        "000003.sst ",
    ),
];

#[test]
fn answers_where_a_call_fails(rt: HostRuntime) -> Result<(), Failure> {
    let alloc = rt.alloc();
    for (call, replies, files, made, gone, names) in FAULTS {
        let due = format!(in alloc;
            "lane 1\n{replies}lane 1 uses 0 misses 0 swept 0\nfamily 0 default live writes 2 files {files}\nmade superversions {made} memtables 3 files 3\ngone superversions {made} memtables 3 files {gone}\nstrays seen 0 gone 0\nend clean\n"
        )?;
        for how in HOWS {
            let dir = failing_dir(alloc, &[(call, how)])?;
            let mut dir = expect_over(&rt, alloc, SCRIPT, dir, 0, due.as_str())?;
            expect_names(&rt, alloc, &mut dir, names)?;
        }
    }
    Ok(())
}

#[test]
fn runs_nothing_where_the_listing_fails(rt: HostRuntime) -> Result<(), Failure> {
    let alloc = rt.alloc();
    for how in HOWS {
        let dir = failing_dir(alloc, &[(1, how)])?;
        let mut dir = expect_over(&rt, alloc, SCRIPT, dir, 7, "directory fault\n")?;
        expect_names(&rt, alloc, &mut dir, "")?;
    }
    Ok(())
}
