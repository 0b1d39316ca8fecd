// Each text against one written out by hand.
use crate::samples::{files, found};
use std::alloc::Global;
use std::process::Abort;
use std::test::Fail;
use sv_model::{FamilyId, FileNumber, Name, Refusal, SvSerial};
use sv_script::{BadKind, BadLine, Outcome, Reply, no_memory_text, outcome_text, reply_text};

// The reply on line 7 must print as this line.
fn expect_line(rt: &impl Abort, alloc: Global, reply: &Reply, line: &str) -> Result<(), Fail> {
    let printed = reply_text(alloc, 7, reply)?;
    assert_eq!(rt; printed.as_slice(), line.as_bytes());
    Ok(())
}

const REPLIES: [(Reply, &str); 17] = [
    (Reply::Put(1), "7 ok put 1\n"),
    (Reply::Delete(262_144), "7 ok delete 262144\n"),
    (
        Reply::Absent {
            cut: 0,
            sv: SvSerial(1),
        },
        "7 absent cut 0 sv 1\n",
    ),
    (
        Reply::Flush {
            number: FileNumber(1),
            from: 0,
            to: 120,
        },
        "7 ok flush file 1 from 0 to 120\n",
    ),
    (
        Reply::Compact {
            number: FileNumber(1_048_576),
            from: 0,
            to: u64::MAX,
        },
        "7 ok compact file 1048576 from 0 to 18446744073709551615\n",
    ),
    (Reply::Create(FamilyId(1)), "7 ok create 1\n"),
    (Reply::Open(FamilyId(0)), "7 ok open 0\n"),
    (Reply::Release, "7 ok release\n"),
    (Reply::Drop, "7 ok drop\n"),
    (Reply::Set(SvSerial(2)), "7 ok set sv 2\n"),
    (
        Reply::Pin {
            pin: 15,
            sv: SvSerial(6),
        },
        "7 ok pin 15 sv 6\n",
    ),
    (Reply::Unpin, "7 ok unpin\n"),
    (Reply::Hold(255), "7 ok hold 255\n"),
    (Reply::Unhold(0), "7 ok unhold 0\n"),
    (Reply::Rest(16), "7 ok rest 16\n"),
    (
        Reply::Snap {
            snapshot: 1,
            at: 262_144,
        },
        "7 ok snap 1 at 262144\n",
    ),
    (Reply::Unsnap, "7 ok unsnap\n"),
];

#[test]
fn prints_replies(rt: HostRuntime) -> Result<(), Fail> {
    let alloc = rt.alloc();
    for (reply, line) in &REPLIES {
        expect_line(&rt, alloc, reply, line)?;
    }
    let few = Reply::Purge(files(alloc, &[1, 20, 300])?);
    expect_line(&rt, alloc, &Reply::Live(files(alloc, &[])?), "7 ok live\n")?;
    expect_line(&rt, alloc, &few, "7 ok purge 1 20 300\n")?;
    expect_line(
        &rt,
        alloc,
        &Reply::Scan(files(alloc, &[9])?),
        "7 ok scan 9\n",
    )
}

const REFUSALS: [(Refusal, &str); 30] = [
    (
        Refusal::KeyLength { length: 65 },
        "7 refused 1 KeyLength 65\n",
    ),
    (
        Refusal::ValueLength { length: 1025 },
        "7 refused 2 ValueLength 1025\n",
    ),
    (Refusal::TooManyLive, "7 refused 3 TooManyLive\n"),
    (Refusal::RegisterFull, "7 refused 4 RegisterFull\n"),
    (Refusal::NameTaken, "7 refused 5 NameTaken\n"),
    (Refusal::TooManyFamilies, "7 refused 6 TooManyFamilies\n"),
    (Refusal::NoFamily, "7 refused 7 NoFamily\n"),
    (Refusal::AlreadyOpen, "7 refused 8 AlreadyOpen\n"),
    (Refusal::NotOpen, "7 refused 9 NotOpen\n"),
    (Refusal::IsDefault, "7 refused 10 IsDefault\n"),
    (Refusal::Dropped, "7 refused 11 Dropped\n"),
    (
        Refusal::BadOption {
            value: 0,
            least: 1,
            greatest: 65_536,
        },
        "7 refused 12 BadOption 0 1 65536\n",
    ),
    (Refusal::NoHold, "7 refused 13 NoHold\n"),
    (Refusal::Disabled { count: 3 }, "7 refused 14 Disabled 3\n"),
    (Refusal::Stalled, "7 refused 15 Stalled\n"),
    (Refusal::NothingToFlush, "7 refused 16 NothingToFlush\n"),
    (Refusal::JournalFull, "7 refused 17 JournalFull\n"),
    (Refusal::TooManyMemtables, "7 refused 18 TooManyMemtables\n"),
    (Refusal::TooManyPins, "7 refused 19 TooManyPins\n"),
    (Refusal::NoPin, "7 refused 20 NoPin\n"),
    (Refusal::DirFault { number: 0 }, "7 refused 21 DirFault 0\n"),
    (
        Refusal::BadFile {
            number: 2,
            place: 29,
        },
        "7 refused 22 BadFile 2 29\n",
    ),
    (Refusal::Busy { number: 10 }, "7 refused 23 Busy 10\n"),
    (Refusal::NothingToCompact, "7 refused 24 NothingToCompact\n"),
    (Refusal::TooManyHolds, "7 refused 25 TooManyHolds\n"),
    (Refusal::TooManySnapshots, "7 refused 26 TooManySnapshots\n"),
    (Refusal::NoSnapshot, "7 refused 27 NoSnapshot\n"),
    (Refusal::NoIterator, "7 refused 28 NoIterator\n"),
    (
        Refusal::NoHandle { index: 16 },
        "7 refused 29 NoHandle 16\n",
    ),
    (Refusal::OutOfMemory, "7 no memory\n"),
];

#[test]
fn prints_refusals(rt: HostRuntime) -> Result<(), Fail> {
    let alloc = rt.alloc();
    for (refusal, line) in &REFUSALS {
        expect_line(&rt, alloc, &Reply::Refused(*refusal), line)?;
    }
    Ok(())
}

const ITEMS: [(&[u8], &str); 6] = [
    (b"", "7 found % cut 1 sv 4\n"),
    (b"%", "7 found %25 cut 1 sv 4\n"),
    (b"aA~!09", "7 found aA~!09 cut 1 sv 4\n"),
    (b"a b", "7 found a%20b cut 1 sv 4\n"),
    (b"\x00\n\x1f\x7f", "7 found %00%0A%1F%7F cut 1 sv 4\n"),
    (b"\xab\xc3\xff", "7 found %AB%C3%FF cut 1 sv 4\n"),
];

#[test]
fn prints_items(rt: HostRuntime) -> Result<(), Fail> {
    let alloc = rt.alloc();
    for (value, line) in &ITEMS {
        expect_line(&rt, alloc, &found(alloc, value)?, line)?;
    }
    Ok(())
}

const OUTCOMES: [(Outcome, &str); 5] = [
    (
        Outcome::Usage,
        "usage: svrun run [--dir PATH]\n       svrun trial N\n       svrun --help\n",
    ),
    (Outcome::ScriptTooLong, "script too long\n"),
    (Outcome::ReadFault, "read fault\n"),
    (Outcome::DirFault, "directory fault\n"),
    (Outcome::OutOfMemory, "no memory\n"),
];

#[test]
fn prints_where_no_report_is_due(rt: HostRuntime) -> Result<(), Fail> {
    let alloc = rt.alloc();
    for (outcome, text) in &OUTCOMES {
        let printed = outcome_text(alloc, *outcome)?;
        assert_eq!(rt; printed.as_slice(), text.as_bytes());
    }
    assert_eq!(rt; no_memory_text(), b"no memory\n".as_slice());
    Ok(())
}

const KINDS: [(BadKind, &str); 9] = [
    (BadKind::Commands, "bad script line 12: commands\n"),
    (BadKind::Lane, "bad script line 12: lane\n"),
    (BadKind::Command, "bad script line 12: command\n"),
    (BadKind::Count, "bad script line 12: count\n"),
    (BadKind::Name, "bad script line 12: name\n"),
    (BadKind::Item, "bad script line 12: item\n"),
    (BadKind::Number, "bad script line 12: number\n"),
    (BadKind::Option, "bad script line 12: option\n"),
    (BadKind::Unbuilt, "bad script line 12: unbuilt\n"),
];

#[test]
fn prints_bad_lines(rt: HostRuntime) -> Result<(), Fail> {
    let alloc = rt.alloc();
    for (kind, text) in &KINDS {
        let bad = BadLine {
            line: 12,
            kind: *kind,
        };
        let printed = outcome_text(alloc, Outcome::BadScript(bad))?;
        assert_eq!(rt; printed.as_slice(), text.as_bytes());
    }
    Ok(())
}
