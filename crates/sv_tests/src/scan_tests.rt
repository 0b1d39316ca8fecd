// Scans of a directory that holds files of earlier runs.
use crate::directories::{dir_of, expect_names, failing_dir_of};
use crate::runs::expect_over;
use std::fs;
use std::test::Fail as Failure;
use sv_dir::{How, RealDir};

const STANDING: [(&str, &str); 4] = [
    ("000001.sst", "one"),
    ("1.sst", "no name of a table file"),
    ("000009.sst", "nine"),
    ("notes", ""),
];

const SCAN: &str = "1 put default a 1\n1 flush default\n1 purge\n1 scan\n";

const SCAN_REPORT: &str = "lane 1
1 ok put 1
2 ok flush file 10 from 0 to 1
3 ok purge
4 ok scan 1 9
lane 1 uses 0 misses 0 swept 0
family 0 default live writes 1 files 10
made superversions 3 memtables 2 files 1
gone superversions 3 memtables 2 files 0
strays seen 2 gone 2
end clean
";

const SCANNED: &str = "000010.sst 1.sst notes ";

#[test]
fn scans_memory(rt: HostRuntime) -> Result<(), Failure> {
    let alloc = rt.alloc();
    let dir = dir_of(alloc, &STANDING)?;
    let mut dir = expect_over(&rt, alloc, SCAN, dir, 0, SCAN_REPORT)?;
    expect_names(&rt, alloc, &mut dir, SCANNED)
}

#[test]
fn scans_a_folder(rt: HostRuntime) -> Result<(), Failure> {
    let alloc = rt.alloc();
    fs::create_dir(&rt, "scans")?;
    for (name, bytes) in STANDING {
        let path = format!(in alloc; "scans/{name}")?;
        fs::write(&rt, path.as_str(), bytes.as_bytes())?;
    }
    let dir = RealDir::new(rt, alloc, "scans".to_string(alloc)?);
    let mut dir = expect_over(&rt, alloc, SCAN, dir, 0, SCAN_REPORT)?;
    expect_names(&rt, alloc, &mut dir, SCANNED)
}

// A name of thirteen digits is read as no number, also where the run writes such files itself.
#[test]
fn leaves_a_name_of_thirteen_digits(rt: HostRuntime) -> Result<(), Failure> {
    let alloc = rt.alloc();
    let report = "lane 1
1 ok put 1
2 ok flush file 1000000000000 from 0 to 1
3 ok purge
4 ok scan 999999999999
lane 1 uses 0 misses 0 swept 0
family 0 default live writes 1 files 1000000000000
made superversions 3 memtables 2 files 1
gone superversions 3 memtables 2 files 0
strays seen 1 gone 1
end clean
";
    let standing = [("999999999999.sst", "last"), ("1000000000001.sst", "no")];
    let dir = dir_of(alloc, &standing)?;
    let mut dir = expect_over(&rt, alloc, SCAN, dir, 0, report)?;
    expect_names(&rt, alloc, &mut dir, "1000000000000.sst 1000000000001.sst ")
}

// The opening and the scan list; the first removal fails and leaves its file, which the purge then removes.
#[test]
fn tries_a_stray_again(rt: HostRuntime) -> Result<(), Failure> {
    let alloc = rt.alloc();
    let report = "lane 1
1 refused 21 DirFault 1
2 ok purge 1
lane 1 uses 0 misses 0 swept 0
family 0 default live writes 0 files none
made superversions 1 memtables 1 files 0
gone superversions 1 memtables 1 files 0
strays seen 2 gone 2
end clean
";
    let dir = failing_dir_of(alloc, &STANDING, &[(3, How::Before)])?;
    let mut dir = expect_over(&rt, alloc, "1 scan\n1 purge\n", dir, 0, report)?;
    expect_names(&rt, alloc, &mut dir, "1.sst notes ")
}
