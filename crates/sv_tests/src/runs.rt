// Runs over streams in memory, and scripts that several tests share.
use crate::directories::empty_dir;
use std::alloc::{AllocError, Global};
use std::process::Abort;
use std::test::Fail;
use sv_dir::{Dir, MemDir};
use sv_run::{MemSink, MemSource, Ran, run};

/// The report of a script without commands.
pub const EMPTY_REPORT: &str = "lane 1
lane 1 uses 0 misses 0 swept 0
family 0 default live writes 0 files none
made superversions 1 memtables 1 files 0
gone superversions 1 memtables 1 files 0
strays seen 0 gone 0
end clean
";

/// A put, a delete, and a get after each.
pub const PUT_AND_DELETE: &str =
    "1 put default a 1\n1 get default a\n1 delete default a\n1 get default a\n";

/// The report of `PUT_AND_DELETE`.
pub const PUT_AND_DELETE_REPORT: &str = "lane 1
1 ok put 1
2 found 1 cut 1 sv 1
3 ok delete 2
4 absent cut 2 sv 1
lane 1 uses 0 misses 0 swept 0
family 0 default live writes 2 files none
made superversions 1 memtables 1 files 0
gone superversions 1 memtables 1 files 0
strays seen 0 gone 0
end clean
";

/// The words of a line that has a comma between them.
pub fn words_of(alloc: Global, line: &str) -> Result<Vec<String>, AllocError> {
    let mut words = Vec::new(alloc);
    for word in line.split(',') {
        words.push(word.to_string(alloc)?)?;
    }
    Ok(words)
}

/// A source of these bytes, read at most `piece` at a time; the calls of these numbers fail.
pub fn source_of(
    rt: &impl Abort,
    alloc: Global,
    bytes: &[u8],
    piece: u64,
    fails: &[u64],
) -> Result<MemSource, AllocError> {
    assert!(rt; piece > 0);
    Ok(MemSource::new(bytes.to_vec(alloc)?, piece, fails.to_vec(alloc)?))
}

/// A sink that takes at most `piece` bytes at a time; the calls of these numbers fail.
pub fn sink_of(
    rt: &impl Abort,
    alloc: Global,
    piece: u64,
    fails: &[u64],
) -> Result<MemSink, AllocError> {
    assert!(rt; piece > 0);
    Ok(MemSink::new(alloc, piece, fails.to_vec(alloc)?))
}

/// Runs the words `run` over the source, an empty directory and the sink.
pub fn run_over(
    alloc: Global,
    source: &mut MemSource,
    sink: &mut MemSink,
) -> Result<Ran<MemDir>, Fail> {
    let words = words_of(alloc, "run")?;
    Ok(run(alloc, words.as_slice(), source, empty_dir(alloc)?, sink))
}

/// The sink must have been given this text.
pub fn expect_text(rt: &impl Abort, sink: &MemSink, text: &[u8]) {
    assert_eq!(rt; sink.bytes(), text);
}

/// The script must end with this exit status and write this text, in pieces of this size.
pub fn expect_run(
    rt: &impl Abort,
    alloc: Global,
    script: &[u8],
    piece: u64,
    code: u8,
    text: &str,
) -> Result<(), Fail> {
    let mut source = source_of(rt, alloc, script, piece, &[])?;
    let mut sink = sink_of(rt, alloc, piece, &[])?;
    let ran = run_over(alloc, &mut source, &mut sink)?;
    expect_text(rt, &sink, text.as_bytes());
    assert_eq!(rt; ran.status.exit_code(), code);
    assert_eq!(rt; ran.done.is_some(), code == 0);
    Ok(())
}

/// The script over this directory must end with this exit status and write this text. Gives the directory back.
pub fn expect_over<D: Dir + Drop>(
    rt: &impl Abort,
    alloc: Global,
    script: &str,
    dir: D,
    code: u8,
    text: &str,
) -> Result<D, Fail> {
    let mut source = source_of(rt, alloc, script.as_bytes(), 64, &[])?;
    let mut sink = sink_of(rt, alloc, 64, &[])?;
    let words = words_of(alloc, "run")?;
    let ran = run(alloc, words.as_slice(), &mut source, dir, &mut sink);
    expect_text(rt, &sink, text.as_bytes());
    assert_eq!(rt; ran.status.exit_code(), code);
    Ok(ran.dir)
}
