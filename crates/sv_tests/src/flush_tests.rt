// Runs with flushes, and the files that they leave.
use crate::directories::{empty_dir, expect_file, expect_names, failing_dir};
use crate::runs::expect_over;
use crate::short_dir::ShortDir;
use std::fs;
use std::test::Fail as Failure;
use sv_dir::{How, RealDir};

const FLUSH_AND_GET: &str = "1 put default a 1
1 get default a
1 get default a
1 flush default
1 get default a
1 get default a
";

const FLUSH_AND_GET_REPORT: &str = "lane 1
1 ok put 1
2 found 1 cut 1 sv 1
3 found 1 cut 1 sv 1
4 ok flush file 1 from 0 to 1
5 found 1 cut 1 sv 3
6 found 1 cut 1 sv 3
lane 1 uses 0 misses 0 swept 0
family 0 default live writes 1 files 1
made superversions 3 memtables 2 files 1
gone superversions 3 memtables 2 files 0
strays seen 0 gone 0
end clean
";

// The table of a put of `1` under the key `a`, from 0 to 1.
const FIRST_TABLE: &[u8] =
    b"SVTABLE1\0\0\0\0\0\0\0\0\x01\0\0\0\0\0\0\0\0\x01\0\0\0\x01a\x01\x01\x001";

#[test]
fn flushes_into_a_table(rt: HostRuntime) -> Result<(), Failure> {
    let alloc = rt.alloc();
    let dir = empty_dir(alloc)?;
    let mut dir = expect_over(&rt, alloc, FLUSH_AND_GET, dir, 0, FLUSH_AND_GET_REPORT)?;
    assert_eq!(rt; FIRST_TABLE.len(), 35);
    expect_names(&rt, alloc, &mut dir, "000001.sst ")?;
    expect_file(&rt, &mut dir, 1, FIRST_TABLE)
}

#[test]
fn flushes_into_a_folder(rt: HostRuntime) -> Result<(), Failure> {
    let alloc = rt.alloc();
    fs::create_dir(&rt, "flushes")?;
    let dir = RealDir::new(rt, alloc, "flushes".to_string(alloc)?);
    let mut dir = expect_over(&rt, alloc, FLUSH_AND_GET, dir, 0, FLUSH_AND_GET_REPORT)?;
    expect_names(&rt, alloc, &mut dir, "000001.sst ")?;
    expect_file(&rt, &mut dir, 1, FIRST_TABLE)
}

#[test]
fn flushes_nothing(rt: HostRuntime) -> Result<(), Failure> {
    let alloc = rt.alloc();
    let report = "lane 1
1 refused 16 NothingToFlush
lane 1 uses 0 misses 0 swept 0
family 0 default live writes 0 files none
made superversions 1 memtables 1 files 0
gone superversions 1 memtables 1 files 0
strays seen 0 gone 0
end clean
";
    let dir = empty_dir(alloc)?;
    let mut dir = expect_over(&rt, alloc, "1 flush default\n", dir, 0, report)?;
    expect_names(&rt, alloc, &mut dir, "")
}

#[test]
fn flushes_only_a_family_that_is_there(rt: HostRuntime) -> Result<(), Failure> {
    let alloc = rt.alloc();
    let script =
        "1 put default a 1\n1 flush cold\n1 flush default\n1 delete default a\n1 flush default\n1 get default a\n1 flush default\n";
    let report = "lane 1
1 ok put 1
2 refused 7 NoFamily
3 ok flush file 1 from 0 to 1
4 ok delete 2
5 ok flush file 2 from 1 to 2
6 absent cut 2 sv 5
7 refused 16 NothingToFlush
lane 1 uses 0 misses 0 swept 0
family 0 default live writes 2 files 1 2
made superversions 5 memtables 3 files 2
gone superversions 5 memtables 3 files 0
strays seen 0 gone 0
end clean
";
    let mut dir = expect_over(&rt, alloc, script, empty_dir(alloc)?, 0, report)?;
    expect_names(&rt, alloc, &mut dir, "000001.sst 000002.sst ")
}

#[test]
fn tells_a_file_cut_short(rt: HostRuntime) -> Result<(), Failure> {
    let alloc = rt.alloc();
    let script = "1 put default a 1\n1 flush default\n1 get default a\n";
    let report = "lane 1
1 ok put 1
2 ok flush file 1 from 0 to 1
3 refused 22 BadFile 1 34
lane 1 uses 0 misses 0 swept 0
family 0 default live writes 1 files 1
made superversions 3 memtables 2 files 1
gone superversions 3 memtables 2 files 0
strays seen 0 gone 0
end clean
";
    let dir = ShortDir {
        inner: empty_dir(alloc)?,
    };
    let mut dir = expect_over(&rt, alloc, script, dir, 0, report)?;
    expect_names(&rt, alloc, &mut dir, "000001.sst ")
}

#[test]
fn flushes_again_after_a_fault(rt: HostRuntime) -> Result<(), Failure> {
    let alloc = rt.alloc();
    let script =
        "1 put default a 1\n1 flush default\n1 get default a\n1 flush default\n1 get default a\n";
    let report = "lane 1
1 ok put 1
2 refused 21 DirFault 1
3 found 1 cut 1 sv 2
4 ok flush file 2 from 0 to 1
5 found 1 cut 1 sv 3
lane 1 uses 0 misses 0 swept 0
family 0 default live writes 1 files 2
made superversions 3 memtables 2 files 2
gone superversions 3 memtables 2 files 1
strays seen 0 gone 0
end clean
";
    let dir = failing_dir(alloc, &[(2, How::Half)])?;
    let mut dir = expect_over(&rt, alloc, script, dir, 0, report)?;
    expect_names(&rt, alloc, &mut dir, "000002.sst ")?;
    expect_file(&rt, &mut dir, 2, FIRST_TABLE)
}
