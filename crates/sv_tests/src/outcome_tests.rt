// What is written where nothing runs.
use crate::runs::expect_run;
use std::test::Fail;
use sv_run::Status;
use sv_script::{BadKind, BadLine};

// Each line is bad for the word beside it.
const BAD_LINES: [(&str, &str); 23] = [
    ("33 hold", "lane"),
    ("0 get default a", "lane"),
    ("x get default a", "lane"),
    ("phase 2", "lane"),
    ("1", "command"),
    ("1 frob x", "command"),
    ("1 PUT default a 1", "command"),
    ("1 hold 2", "count"),
    ("1 put default a", "count"),
    ("1 get default a 1", "count"),
    ("1 put Cold a 1", "name"),
    ("1 get a-b a", "name"),
    ("1 put cold a%4 1", "item"),
    ("1 put default a 1%", "item"),
    ("1 unpin -1", "number"),
    ("1 getp x a", "number"),
    ("1 set cold rows 5", "option"),
    ("1 pin cold", "unbuilt"),
    ("1 unpin 0", "unbuilt"),
    ("1 rest", "unbuilt"),
    ("1 getp 0 a", "unbuilt"),
    ("2 put default a 1", "unbuilt"),
    ("32 get default a", "unbuilt"),
];

#[test]
fn names_the_first_bad_line(rt: HostRuntime) -> Result<(), Fail> {
    let alloc = rt.alloc();
    for (line, word) in BAD_LINES {
        let alone = format!(in alloc; "{line}\n")?;
        let due = format!(in alloc; "bad script line 1: {word}\n")?;
        expect_run(&rt, alloc, alone.as_bytes(), 64, 3, due.as_str())?;
        let after = format!(in alloc; "1 put default a 1\n{line}\n1 frob x\n")?;
        let due = format!(in alloc; "bad script line 2: {word}\n")?;
        expect_run(&rt, alloc, after.as_bytes(), 64, 3, due.as_str())?;
    }
    Ok(())
}

#[test]
fn ends_with_the_number_of_its_status(rt: HostRuntime) {
    let bad = BadLine {
        line: 2,
        kind: BadKind::Unbuilt,
    };
    assert_eq!(rt; Status::Ok.exit_code(), 0);
    assert_eq!(rt; Status::Usage.exit_code(), 2);
    assert_eq!(rt; Status::BadScript(bad).exit_code(), 3);
    assert_eq!(rt; Status::ScriptTooLong.exit_code(), 4);
    assert_eq!(rt; Status::ReadFault.exit_code(), 5);
    assert_eq!(rt; Status::WriteFault.exit_code(), 6);
    assert_eq!(rt; Status::DirFault.exit_code(), 7);
    assert_eq!(rt; Status::OutOfMemory.exit_code(), 8);
}
