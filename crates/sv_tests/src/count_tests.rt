// Scripts that reach the limits of holds, of snapshots and of the journal.
use crate::runs::expect_run;
use std::alloc::{AllocError, Global};
use std::test::Fail;

const NOTHING_MADE: &str = "lane 1 uses 0 misses 0 swept 0
family 0 default live writes 0 files none
made superversions 1 memtables 1 files 0
gone superversions 1 memtables 1 files 0
strays seen 0 gone 0
end clean
";

// The replies to 256 holds.
fn hold_report(alloc: Global) -> Result<String, AllocError> {
    let mut due = "lane 1\n".to_string(alloc)?;
    for count in 1..=255 {
        due.push_str(&format!(in alloc; "{count} ok hold {count}\n")?)?;
    }
    due.push_str("256 refused 25 TooManyHolds\n")?;
    due.push_str(NOTHING_MADE)?;
    Ok(due)
}

#[test]
fn takes_no_hold_too_many(rt: HostRuntime) -> Result<(), Fail> {
    let alloc = rt.alloc();
    let script = "1 hold\n".repeat(alloc, 256)?;
    let due = hold_report(alloc)?;
    expect_run(&rt, alloc, script.as_bytes(), 64, 0, due.as_str())
}

// The replies to 65 snapshots in a row.
fn snap_report(alloc: Global) -> Result<String, AllocError> {
    let mut due = "lane 1\n".to_string(alloc)?;
    for number in 1..=64 {
        due.push_str(&format!(in alloc; "{number} ok snap {number} at 0\n")?)?;
    }
    due.push_str("65 refused 26 TooManySnapshots\n66 ok unsnap\n67 ok snap 65 at 0\n")?;
    due.push_str("68 refused 27 NoSnapshot\n")?;
    due.push_str(NOTHING_MADE)?;
    Ok(due)
}

#[test]
fn takes_no_snapshot_too_many(rt: HostRuntime) -> Result<(), Fail> {
    let alloc = rt.alloc();
    let mut script = "1 snap\n".repeat(alloc, 65)?;
    script.push_str("1 unsnap 7\n1 snap\n1 unsnap 7\n")?;
    let due = snap_report(alloc)?;
    expect_run(&rt, alloc, script.as_bytes(), 64, 0, due.as_str())
}

// As many writes as a memtable takes at most, and as the journal takes four times.
const ROWS: u64 = 65_536;

const AFTER_THE_WRITES: &str = "262150 refused 17 JournalFull
lane 1 uses 0 misses 0 swept 0
family 0 default live writes 262144 files 1 2 3 4
made superversions 10 memtables 5 files 4
gone superversions 10 memtables 5 files 0
strays seen 0 gone 0
end clean
";

// Four times as many puts as a memtable takes at most, each time with a flush after them, and one put.
fn full_journal(alloc: Global) -> Result<String, AllocError> {
    let mut script = "1 set default memtable_rows 65536\n".to_string(alloc)?;
    for _ in 0..4 {
        for _ in 0..ROWS {
            script.push_str("1 put default a 1\n")?;
        }
        script.push_str("1 flush default\n")?;
    }
    script.push_str("1 put default a 1\n")?;
    Ok(script)
}

fn full_report(alloc: Global) -> Result<String, AllocError> {
    let mut due = "lane 1\n1 ok set sv 2\n".to_string(alloc)?;
    for file in 1..=4u64 {
        let to = file.saturating_mul(ROWS);
        let from = to.saturating_sub(ROWS);
        for write in from.saturating_add(1)..=to {
            let line = write.saturating_add(file);
            due.push_str(&format!(in alloc; "{line} ok put {write}\n")?)?;
        }
        let line = to.saturating_add(file).saturating_add(1);
        due.push_str(&format!(in alloc; "{line} ok flush file {file} from {from} to {to}\n")?)?;
    }
    due.push_str(AFTER_THE_WRITES)?;
    Ok(due)
}

#[test]
fn takes_no_write_too_many(rt: HostRuntime) -> Result<(), Fail> {
    let alloc = rt.alloc();
    let script = full_journal(alloc)?;
    let due = full_report(alloc)?;
    expect_run(&rt, alloc, script.as_bytes(), 65_536, 0, due.as_str())
}
