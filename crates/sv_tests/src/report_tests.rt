// Whole reports of scripts that are good, written out by hand.
use crate::runs::{EMPTY_REPORT, PUT_AND_DELETE, PUT_AND_DELETE_REPORT, expect_run};
use std::alloc::{AllocError, Global};
use std::test::Fail;

// Rows of one lane over `default`, and the report around its replies.
const TAIL: &str = "lane 1 uses 0 misses 0 swept 0\n";

const END: &str = "made superversions 1 memtables 1 files 0
gone superversions 1 memtables 1 files 0
strays seen 0 gone 0
end clean
";

// The report of these replies, after so many writes.
fn report(alloc: Global, replies: &str, writes: u64) -> Result<String, AllocError> {
    format!(in alloc;
        "lane 1\n{replies}{TAIL}family 0 default live writes {writes} files none\n{END}"
    )
}

// A put of a key of so many `k` and a value of so many `v`.
fn put_of(alloc: Global, key: usize, value: usize) -> Result<String, AllocError> {
    let key = "k".repeat(alloc, key)?;
    let value = "v".repeat(alloc, value)?;
    format!(in alloc; "1 put default {key} {value}\n")
}

const LENGTHS: [(usize, usize); 6] = [
    (1, 1024),
    (64, 1),
    (65, 1),
    (1, 1025),
    (65, 1025),
    (64, 1024),
];

const LENGTH_REPLIES: &str = "1 ok put 1
2 ok put 2
3 refused 1 KeyLength 65
4 refused 2 ValueLength 1025
5 refused 1 KeyLength 65
6 ok put 3
7 refused 1 KeyLength 0
8 ok put 4
9 found % cut 4 sv 1
";

#[test]
fn refuses_lengths(rt: HostRuntime) -> Result<(), Fail> {
    let alloc = rt.alloc();
    let mut script = String::new(alloc);
    for (key, value) in LENGTHS {
        script.push_str(&put_of(alloc, key, value)?)?;
    }
    script.push_str("1 get default %\n1 put default e %\n1 get default e\n")?;
    let due = report(alloc, LENGTH_REPLIES, 4)?;
    expect_run(&rt, alloc, script.as_bytes(), 64, 0, due.as_str())
}

// Each script with the replies to it and the number of writes after it.
const SCRIPTS: [(&str, &str, u64); 6] = [
    (
        "1 put cold a 1\n1 get cold a\n1 delete cold a\n1 get default a\n",
        "1 refused 7 NoFamily\n2 refused 7 NoFamily\n3 refused 7 NoFamily\n4 absent cut 0 sv 1\n",
        0,
    ),
    (
        "1 put cold % 1\n1 get cold %\n1 delete cold %\n1 delete default %\n",
        "1 refused 1 KeyLength 0\n2 refused 1 KeyLength 0\n3 refused 1 KeyLength 0\n4 refused 1 KeyLength 0\n",
        0,
    ),
    (
        "# a note\r\n\n \t01\tput  default a%41 %00%25\r\nphase\n1 get default %61A",
        "3 ok put 1\n5 found %00%25 cut 1 sv 1\n",
        1,
    ),
    (
        "1 put default a 1\n1 put default a 2\n1 put default b 3\n1 get default a\n1 get default b\n",
        "1 ok put 1\n2 ok put 2\n3 ok put 3\n4 found 2 cut 3 sv 1\n5 found 3 cut 3 sv 1\n",
        3,
    ),
    (
        "1 delete default a\n1 get default a\n1 put default a 1\n1 get default a",
        "1 ok delete 1\n2 absent cut 1 sv 1\n3 ok put 2\n4 found 1 cut 2 sv 1\n",
        2,
    ),
    (
        "1 get default b\n1 put default a 1\n1 get default A\n1 get default aa\n",
        "1 absent cut 0 sv 1\n2 ok put 1\n3 absent cut 1 sv 1\n4 absent cut 1 sv 1\n",
        1,
    ),
];

#[test]
fn reports_what_each_line_did(rt: HostRuntime) -> Result<(), Fail> {
    let alloc = rt.alloc();
    for (script, replies, writes) in SCRIPTS {
        let due = report(alloc, replies, writes)?;
        expect_run(&rt, alloc, script.as_bytes(), 64, 0, due.as_str())?;
    }
    Ok(())
}

#[test]
fn reports_alike_in_every_piece_size(rt: HostRuntime) -> Result<(), Fail> {
    let alloc = rt.alloc();
    for piece in [1, 2, 3, 64, u64::MAX] {
        expect_run(&rt, alloc, b"", piece, 0, EMPTY_REPORT)?;
        expect_run(
            &rt,
            alloc,
            PUT_AND_DELETE.as_bytes(),
            piece,
            0,
            PUT_AND_DELETE_REPORT,
        )?;
    }
    Ok(())
}
