// Directories that hold files already, and a folder that is not there.
use crate::directories::{dir_of, expect_file, expect_names};
use crate::runs::expect_over;
use std::alloc::{AllocError, Global};
use std::test::Fail as Failure;
use sv_dir::RealDir;

const FLUSH: &str = "1 put default a 1\n1 flush default\n";

// The report of `FLUSH` with its file under this number.
fn flush_report(alloc: Global, number: u64) -> Result<String, AllocError> {
    format!(in alloc;
        "lane 1\n1 ok put 1\n2 ok flush file {number} from 0 to 1\nlane 1 uses 0 misses 0 swept 0\nfamily 0 default live writes 1 files {number}\nmade superversions 3 memtables 2 files 1\ngone superversions 3 memtables 2 files 0\nstrays seen 0 gone 0\nend clean\n"
    )
}

// The names that stand there, the number of the first file, and the names after it.
const STANDING: [(&[(&str, &str)], u64, &str); 4] = [
    (
        &[("notes", "n"), ("1.sst", "o")],
        1,
        "000001.sst 1.sst notes ",
    ),
    (&[("000001.sst", "old")], 2, "000001.sst 000002.sst "),
    (
        &[
            ("000041.sst", "old"),
            ("0000050.sst", "x"),
            ("000007.sst", ""),
        ],
        42,
        "0000050.sst 000007.sst 000041.sst 000042.sst ",
    ),
    (
        &[("999999999999.sst", "last")],
        1_000_000_000_000,
        "1000000000000.sst 999999999999.sst ",
    ),
];

#[test]
fn numbers_files_above_those_there(rt: HostRuntime) -> Result<(), Failure> {
    let alloc = rt.alloc();
    for (files, number, names) in STANDING {
        let due = flush_report(alloc, number)?;
        let dir = dir_of(alloc, files)?;
        let mut dir = expect_over(&rt, alloc, FLUSH, dir, 0, due.as_str())?;
        expect_names(&rt, alloc, &mut dir, names)?;
    }
    Ok(())
}

#[test]
fn leaves_other_files_alone(rt: HostRuntime) -> Result<(), Failure> {
    let alloc = rt.alloc();
    let due = flush_report(alloc, 8)?;
    let dir = dir_of(alloc, &[("notes", "n"), ("000007.sst", "old")])?;
    let mut dir = expect_over(&rt, alloc, FLUSH, dir, 0, due.as_str())?;
    expect_names(&rt, alloc, &mut dir, "000007.sst 000008.sst notes ")?;
    expect_file(&rt, &mut dir, 7, b"old")
}

#[test]
fn runs_again_over_the_same_files(rt: HostRuntime) -> Result<(), Failure> {
    let alloc = rt.alloc();
    let first = flush_report(alloc, 1)?;
    let second = flush_report(alloc, 2)?;
    let dir = dir_of(alloc, &[])?;
    let dir = expect_over(&rt, alloc, FLUSH, dir, 0, first.as_str())?;
    let mut dir = expect_over(&rt, alloc, FLUSH, dir, 0, second.as_str())?;
    expect_names(&rt, alloc, &mut dir, "000001.sst 000002.sst ")
}

#[test]
fn runs_nothing_over_a_folder_that_is_not_there(rt: HostRuntime) -> Result<(), Failure> {
    let alloc = rt.alloc();
    let nowhere = RealDir::new(rt, alloc, "nowhere".to_string(alloc)?);
    let _nowhere = expect_over(&rt, alloc, FLUSH, nowhere, 7, "directory fault\n")?;
    Ok(())
}
