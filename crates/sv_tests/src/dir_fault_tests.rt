// Directories of which each call fails in turn, in each way.
use crate::directories::{expect_names, failing_dir};
use crate::runs::{expect_over, expect_text, sink_of, source_of, words_of};
use std::alloc::{AllocError, Global};
use std::process::Abort;
use std::test::Fail as Failure;
use sv_dir::{Dir, DirError, How};
use sv_model::End;
use sv_run::{Status, run};

const HOWS: [How; 3] = [How::Before, How::Half, How::After];

// It lists, puts file 1, reads it, puts file 2 and reads that: calls 1 to 5. A file that was not written is
// removed by one call more.
const TWO_FLUSHES: &str = "1 put default a 1
1 flush default
1 get default a
1 put default b 2
1 flush default
1 get default b
";

// The call that fails, at the end none, the replies to lines 2 to 6, the files of the family, the numbers of what was made and is
// gone, and the files left.
const FAULTS: [(u64, &str, &str, &str, &str, &str); 5] = [
    (
        2,
        "2 refused 21 DirFault 1\n3 found 1 cut 1 sv 2\n4 ok put 2\n5 ok flush file 2 from 0 to 2\n6 found 2 cut 2 sv 4\n",
        "2",
        "superversions 4 memtables 3 files 2",
        "superversions 4 memtables 3 files 1",
        "000002.sst ",
    ),
    (
        3,
        "2 ok flush file 1 from 0 to 1\n3 refused 21 DirFault 1\n4 ok put 2\n5 ok flush file 2 from 1 to 2\n6 found 2 cut 2 sv 5\n",
        "1 2",
        "superversions 5 memtables 3 files 2",
        "superversions 5 memtables 3 files 0",
        "000001.sst 000002.sst ",
    ),
    (
        4,
        "2 ok flush file 1 from 0 to 1\n3 found 1 cut 1 sv 3\n4 ok put 2\n5 refused 21 DirFault 2\n6 found 2 cut 2 sv 4\n",
        "1",
        "superversions 4 memtables 3 files 2",
        "superversions 4 memtables 3 files 1",
        "000001.sst ",
    ),
    (
        5,
        "2 ok flush file 1 from 0 to 1\n3 found 1 cut 1 sv 3\n4 ok put 2\n5 ok flush file 2 from 1 to 2\n6 refused 21 DirFault 2\n",
        "1 2",
        "superversions 5 memtables 3 files 2",
        "superversions 5 memtables 3 files 0",
        "000001.sst 000002.sst ",
    ),
    (
        99,
        "2 ok flush file 1 from 0 to 1\n3 found 1 cut 1 sv 3\n4 ok put 2\n5 ok flush file 2 from 1 to 2\n6 found 2 cut 2 sv 5\n",
        "1 2",
        "superversions 5 memtables 3 files 2",
        "superversions 5 memtables 3 files 0",
        "000001.sst 000002.sst ",
    ),
];

fn report(
    alloc: Global,
    replies: &str,
    files: &str,
    made: &str,
    gone: &str,
) -> Result<String, AllocError> {
    format!(in alloc;
        "lane 1\n1 ok put 1\n{replies}lane 1 uses 0 misses 0 swept 0\nfamily 0 default live writes 2 files {files}\nmade {made}\ngone {gone}\nstrays seen 0 gone 0\nend clean\n"
    )
}

#[test]
fn answers_where_a_call_fails(rt: HostRuntime) -> Result<(), Failure> {
    let alloc = rt.alloc();
    for (call, replies, files, made, gone, names) in FAULTS {
        let due = report(alloc, replies, files, made, gone)?;
        for how in HOWS {
            let dir = failing_dir(alloc, &[(call, how)])?;
            let mut dir = expect_over(&rt, alloc, TWO_FLUSHES, dir, 0, due.as_str())?;
            expect_names(&rt, alloc, &mut dir, names)?;
        }
    }
    Ok(())
}

#[test]
fn runs_nothing_where_the_listing_fails(rt: HostRuntime) -> Result<(), Failure> {
    let alloc = rt.alloc();
    let text = "directory fault\n";
    for how in HOWS {
        let dir = failing_dir(alloc, &[(1, how)])?;
        let mut dir = expect_over(&rt, alloc, TWO_FLUSHES, dir, 7, text)?;
        expect_names(&rt, alloc, &mut dir, "")?;
    }
    // A bad script comes first, and then nothing was asked of the directory.
    let dir = failing_dir(alloc, &[(1, How::Before)])?;
    let bad = "bad script line 1: command\n";
    let mut dir = expect_over(&rt, alloc, "1 frob x\n", dir, 3, bad)?;
    assert!(rt; matches!(dir.list(), Err(DirError::Failed)));
    Ok(())
}

const LEFT_REPORT: &str = "lane 1
1 ok put 1
2 refused 21 DirFault 1
lane 1 uses 0 misses 0 swept 0
family 0 default live writes 1 files none
made superversions 2 memtables 2 files 1
gone superversions 2 memtables 2 files 0
strays seen 0 gone 0
end left 1
";

// How the put of file 1 fails and how its removal does, and the files left.
const LEFT: [(How, How, &str); 9] = [
    (How::Before, How::Before, ""),
    (How::Before, How::Half, ""),
    (How::Before, How::After, ""),
    (How::Half, How::Before, "000001.sst "),
    (How::Half, How::Half, "000001.sst "),
    (How::Half, How::After, ""),
    (How::After, How::Before, "000001.sst "),
    (How::After, How::Half, "000001.sst "),
    (How::After, How::After, ""),
];

// The put of file 1 and its removal must fail so, and leave this.
fn expect_left(
    rt: &impl Abort,
    alloc: Global,
    put: How,
    removal: How,
    names: &str,
) -> Result<(), Failure> {
    let script = b"1 put default a 1\n1 flush default\n";
    let mut source = source_of(rt, alloc, script, 64, &[])?;
    let mut sink = sink_of(rt, alloc, 64, &[])?;
    let words = words_of(alloc, "run")?;
    let dir = failing_dir(alloc, &[(2, put), (3, removal)])?;
    let ran = run(alloc, words.as_slice(), &mut source, dir, &mut sink);
    expect_text(rt, &sink, LEFT_REPORT.as_bytes());
    assert_eq!(rt; ran.status, Status::DirFault);
    match &ran.done {
        Some(done) => assert_eq!(rt; done.end, End::DirFault),
        None => assert!(rt; false, "nothing ran"),
    }
    let mut dir = ran.dir;
    expect_names(rt, alloc, &mut dir, names)
}

#[test]
fn tells_the_files_that_are_left(rt: HostRuntime) -> Result<(), Failure> {
    let alloc = rt.alloc();
    for (put, removal, names) in LEFT {
        expect_left(&rt, alloc, put, removal, names)?;
    }
    Ok(())
}
