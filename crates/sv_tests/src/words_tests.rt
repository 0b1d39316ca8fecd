// The words that the program takes.
use crate::directories::empty_dir;
use crate::runs::{EMPTY_REPORT, expect_run, expect_text, run_over, sink_of, source_of, words_of};
use std::alloc::Global;
use std::process::Abort;
use std::test::Fail;
use sv_run::{Status, dir_word, run};
use sv_script::{BadKind, BadLine};

const USAGE: &str = "usage: svrun run [--dir PATH]\n       svrun trial N\n       svrun --help\n";

// These words must be refused, with nothing read.
fn expect_usage(rt: &impl Abort, alloc: Global, words: &[String]) -> Result<(), Fail> {
    let mut source = source_of(rt, alloc, b"1 frob x", 64, &[])?;
    let mut sink = sink_of(rt, alloc, 64, &[])?;
    let ran = run(alloc, words, &mut source, empty_dir(alloc)?, &mut sink);
    assert_eq!(rt; ran.status, Status::Usage);
    assert!(rt; ran.done.is_none());
    assert!(rt; dir_word(words).is_none());
    expect_text(rt, &sink, USAGE.as_bytes());
    let mut later = sink_of(rt, alloc, 64, &[])?;
    let ran = run_over(alloc, &mut source, &mut later)?;
    let bad = BadLine {
        line: 1,
        kind: BadKind::Command,
    };
    assert_eq!(rt; ran.status, Status::BadScript(bad));
    expect_text(rt, &later, b"bad script line 1: command\n");
    Ok(())
}

#[test]
fn refuses_other_words(rt: HostRuntime) -> Result<(), Fail> {
    let alloc = rt.alloc();
    expect_usage(&rt, alloc, &[])?;
    for line in [
        "walk",
        "run,run",
        "run,--dir",
        "run,--dir=",
        "run,--dir,",
        "run,--dir,-x",
        "run,--dir,--dir",
        "run,--dir=-x",
        "run,--dir,a,b",
        "run,--dir=a,b",
        "run,--dirs=a",
        "run,-dir,a",
        "run,a",
        "walk,--dir,a",
        "walk,--dir=a",
        "--dir=a",
        "--help,run",
        "help",
        "trial,0",
        "Run",
        "run ",
        "ru",
        "",
        "run,",
    ] {
        let words = words_of(alloc, line)?;
        expect_usage(&rt, alloc, words.as_slice())?;
    }
    Ok(())
}

#[test]
fn gives_help(rt: HostRuntime) -> Result<(), Fail> {
    let alloc = rt.alloc();
    let words = words_of(alloc, "--help")?;
    let mut source = source_of(&rt, alloc, b"not read", 64, &[])?;
    let mut sink = sink_of(&rt, alloc, 64, &[])?;
    let ran = run(
        alloc,
        words.as_slice(),
        &mut source,
        empty_dir(alloc)?,
        &mut sink,
    );
    assert_eq!(&rt; ran.status, Status::Ok);
    assert!(&rt; ran.done.is_none());
    expect_text(&rt, &sink, USAGE.as_bytes());
    Ok(())
}

// These words must be taken, and name this path.
fn expect_path(rt: &impl Abort, alloc: Global, line: &str, path: &str) -> Result<(), Fail> {
    let words = words_of(alloc, line)?;
    assert_eq!(rt; dir_word(words.as_slice()), Some(path));
    let mut source = source_of(rt, alloc, b"", 64, &[])?;
    let mut sink = sink_of(rt, alloc, 64, &[])?;
    let ran = run(
        alloc,
        words.as_slice(),
        &mut source,
        empty_dir(alloc)?,
        &mut sink,
    );
    assert_eq!(rt; ran.status, Status::Ok);
    expect_text(rt, &sink, EMPTY_REPORT.as_bytes());
    Ok(())
}

#[test]
fn takes_run_alone_and_with_a_path(rt: HostRuntime) -> Result<(), Fail> {
    let alloc = rt.alloc();
    expect_run(&rt, alloc, b"", 64, 0, EMPTY_REPORT)?;
    for (line, path) in [
        ("run,--dir,a", "a"),
        ("run,--dir=a", "a"),
        ("run,--dir,a-b", "a-b"),
        ("run,--dir=a=b", "a=b"),
        ("run,--dir, ", " "),
        ("run,--dir=/tmp/x", "/tmp/x"),
    ] {
        expect_path(&rt, alloc, line, path)?;
    }
    Ok(())
}
