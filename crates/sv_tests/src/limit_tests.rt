// Scripts at the limits and beyond.
use crate::runs::{EMPTY_REPORT, expect_run, expect_text, run_over, sink_of};
use std::alloc::{AllocError, Global};
use std::process::Abort;
use std::test::Fail;
use sv_run::{MemSource, Status};

const AFTER_THE_ROWS: &str = "3073 refused 15 Stalled
3074 found last cut 3072 sv 3
3075 absent cut 3072 sv 3
3076 refused 15 Stalled
3077 ok flush file 1 from 0 to 3072
3078 ok put 3073
3079 found x cut 3073 sv 5
lane 1 uses 0 misses 0 swept 0
family 0 default live writes 3073 files 1
made superversions 5 memtables 4 files 1
gone superversions 5 memtables 4 files 0
strays seen 0 gone 0
end clean
";

// 3,072 puts of one key, the last of another value: as many rows as three memtables take.
fn many_puts(alloc: Global) -> Result<String, AllocError> {
    let mut script = "1 put default a 1\n".repeat(alloc, 3071)?;
    script.push_str("1 put default a last\n")?;
    Ok(script)
}

fn many_replies(alloc: Global) -> Result<String, AllocError> {
    let mut due = "lane 1\n".to_string(alloc)?;
    for number in 1..=3072 {
        due.push_str(&format!(in alloc; "{number} ok put {number}\n")?)?;
    }
    due.push_str(AFTER_THE_ROWS)?;
    Ok(due)
}

// Two immutable memtables may wait; the write that would make a third is refused, until a flush.
#[test]
fn stalls_where_two_memtables_wait(rt: HostRuntime) -> Result<(), Fail> {
    let alloc = rt.alloc();
    let mut script = many_puts(alloc)?;
    script.push_str("1 put default a x\n1 get default a\n1 get default b\n")?;
    script.push_str("1 delete default a\n1 flush default\n")?;
    script.push_str("1 put default a x\n1 get default a\n")?;
    let due = many_replies(alloc)?;
    expect_run(&rt, alloc, script.as_bytes(), 1000, 0, due.as_str())
}

// This front and so many line feeds after it must end with this status and text.
fn expect_long(
    rt: &impl Abort,
    alloc: Global,
    front: &[u8],
    feeds: usize,
    status: Status,
    text: &str,
) -> Result<(), Fail> {
    let mut script = front.to_vec(alloc)?;
    script.resize(front.len().saturating_add(feeds), b'\n')?;
    let mut source = MemSource::new(script, 65_536, Vec::new(alloc));
    let mut sink = sink_of(rt, alloc, 64, &[])?;
    let ran = run_over(alloc, &mut source, &mut sink)?;
    expect_text(rt, &sink, text.as_bytes());
    assert_eq!(rt; ran.status, status);
    assert_eq!(rt; ran.done.is_some(), status == Status::Ok);
    Ok(())
}

#[test]
fn takes_no_script_too_long(rt: HostRuntime) -> Result<(), Fail> {
    let alloc = rt.alloc();
    let long = 16_777_216;
    let too_long = "script too long\n";
    expect_long(&rt, alloc, b"", long, Status::Ok, EMPTY_REPORT)?;
    expect_long(&rt, alloc, b"\n", long, Status::ScriptTooLong, too_long)?;
    expect_long(&rt, alloc, b"x", long, Status::ScriptTooLong, too_long)
}

#[test]
fn takes_no_command_line_too_many(rt: HostRuntime) -> Result<(), Fail> {
    let alloc = rt.alloc();
    let mut script = "#\n1 get cold a\n".repeat(alloc, 500_000)?;
    script.push_str("#\n33 hold\n")?;
    expect_run(
        &rt,
        alloc,
        script.as_bytes(),
        65_536,
        3,
        "bad script line 1000002: commands\n",
    )
}
