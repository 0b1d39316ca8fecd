// Streams of which one call fails.
use crate::directories::empty_dir;
use crate::runs::{
    PUT_AND_DELETE, PUT_AND_DELETE_REPORT, expect_text, run_over, sink_of, source_of, words_of,
};
use std::alloc::Global;
use std::process::Abort;
use std::test::Fail;
use sv_run::{Status, run};

// The script over a sink of which one call fails must end with this status, with this text written.
fn expect_written(
    rt: &impl Abort,
    alloc: Global,
    script: &str,
    piece: u64,
    fails: u64,
    status: Status,
    text: &[u8],
) -> Result<(), Fail> {
    let mut source = source_of(rt, alloc, script.as_bytes(), 64, &[])?;
    let mut sink = sink_of(rt, alloc, piece, &[fails])?;
    let ran = run_over(alloc, &mut source, &mut sink)?;
    expect_text(rt, &sink, text);
    assert_eq!(rt; ran.status, status);
    assert!(rt; ran.done.is_some());
    Ok(())
}

// The report has 259 bytes: 37 writes of seven.
#[test]
fn writes_a_front_where_the_sink_fails(rt: HostRuntime) -> Result<(), Fail> {
    let alloc = rt.alloc();
    let fault = Status::WriteFault;
    expect_written(&rt, alloc, "", 5, 2, fault, b"lane ")?;
    let due = PUT_AND_DELETE_REPORT.as_bytes();
    for taken in 0..37 {
        let text = due.get(..taken * 7).ok_or("no front")?;
        let call = taken as u64 + 1;
        expect_written(&rt, alloc, PUT_AND_DELETE, 7, call, fault, text)?;
    }
    expect_written(&rt, alloc, PUT_AND_DELETE, 7, 38, Status::Ok, due)
}

// These words and this script over a sink of which one call fails must end with `WriteFault`,
// with a front of the text written.
fn expect_cut(
    rt: &impl Abort,
    alloc: Global,
    words: &str,
    script: &str,
    text: &[u8],
) -> Result<(), Fail> {
    let words = words_of(alloc, words)?;
    let mut source = source_of(rt, alloc, script.as_bytes(), 64, &[])?;
    let mut sink = sink_of(rt, alloc, 5, &[2])?;
    let ran = run(
        alloc,
        words.as_slice(),
        &mut source,
        empty_dir(alloc)?,
        &mut sink,
    );
    expect_text(rt, &sink, text);
    assert_eq!(rt; ran.status, Status::WriteFault);
    assert!(rt; ran.done.is_none());
    Ok(())
}

#[test]
fn writes_a_front_where_nothing_ran(rt: HostRuntime) -> Result<(), Fail> {
    let alloc = rt.alloc();
    expect_cut(&rt, alloc, "walk", "", b"usage")?;
    expect_cut(&rt, alloc, "run", "1 frob x", b"bad s")
}

// A source that is read 10 bytes at a time and of which one call fails must give this status and text.
fn expect_read(
    rt: &impl Abort,
    alloc: Global,
    script: &str,
    fails: u64,
    status: Status,
    text: &str,
) -> Result<(), Fail> {
    let mut source = source_of(rt, alloc, script.as_bytes(), 10, &[fails])?;
    let mut sink = sink_of(rt, alloc, 64, &[])?;
    let ran = run_over(alloc, &mut source, &mut sink)?;
    expect_text(rt, &sink, text.as_bytes());
    assert_eq!(rt; ran.status, status);
    assert_eq!(rt; ran.done.is_some(), status == Status::Ok);
    Ok(())
}

// The script has 69 bytes: seven reads for them, and one that finds the end.
#[test]
fn runs_nothing_where_the_source_fails(rt: HostRuntime) -> Result<(), Fail> {
    let alloc = rt.alloc();
    let (fault, text) = (Status::ReadFault, "read fault\n");
    expect_read(&rt, alloc, "", 1, fault, text)?;
    expect_read(&rt, alloc, "1 frob x\n1 frob x\n", 2, fault, text)?;
    for call in 1..=8 {
        expect_read(&rt, alloc, PUT_AND_DELETE, call, fault, text)?;
    }
    let report = PUT_AND_DELETE_REPORT;
    expect_read(&rt, alloc, PUT_AND_DELETE, 9, Status::Ok, report)
}
