// Scripts against what each of their lines is, written out by hand.
use std::alloc::Global;
use std::process::Abort;
use std::test::Fail;
use sv_script::{BadKind, BadLine, Command, Line, Script, ScriptError, parse};

// The script must be bad, first at this line.
fn expect_bad(rt: &impl Abort, alloc: Global, script: &[u8], line: u64, kind: BadKind) {
    let bad = ScriptError::Bad(BadLine { line, kind });
    match parse(alloc, script) {
        Ok(_) => panic!(rt; "a good script"),
        Err(error) => assert_eq!(rt; error, bad),
    }
}

// The script must have so many phases and lines.
fn expect_script(
    rt: &impl Abort,
    alloc: Global,
    script: &[u8],
    phases: u32,
    lines: usize,
) -> Script {
    match parse(alloc, script) {
        Ok(read) => {
            assert_eq!(rt; read.lanes, 1);
            assert_eq!(rt; read.phases, phases);
            assert_eq!(rt; read.lines.as_slice().len(), lines);
            read
        }
        Err(_) => panic!(rt; "a bad script"),
    }
}

// The line must be this put of the lane 1.
fn expect_put(rt: &impl Abort, line: &Line, at: (u64, u32), family: &[u8], row: (&[u8], &[u8])) {
    assert_eq!(rt; line.line, at.0);
    assert_eq!(rt; line.phase, at.1);
    assert_eq!(rt; line.lane, 1);
    match &line.command {
        Command::Put {
            family: name,
            key,
            value,
        } => {
            assert_eq!(rt; name.as_bytes(), family);
            assert_eq!(rt; key.as_slice(), row.0);
            assert_eq!(rt; value.as_slice(), row.1);
        }
        _ => panic!(rt; "another command"),
    }
}

// The script must be this one put.
fn expect_one(rt: &impl Abort, alloc: Global, script: &[u8], at: (u64, u32), row: (&[u8], &[u8])) {
    let script = expect_script(rt, alloc, script, at.1.saturating_add(1), 1);
    match script.lines.as_slice() {
        [line] => expect_put(rt, line, at, b"cold".as_slice(), row),
        _ => panic!(rt; "other lines"),
    }
}

#[test]
fn names_what_a_line_has_wrong(rt: HostRuntime) {
    let alloc = rt.alloc();
    for (line, kind) in [
        (b"33 hold".as_slice(), BadKind::Lane),
        (b"phase 2", BadKind::Lane),
        (b"0 hold", BadKind::Lane),
        (b"x", BadKind::Lane),
        (b"000000000000000000001 hold", BadKind::Lane),
        (b"18446744073709551617 hold", BadKind::Lane),
        (b"1", BadKind::Command),
        (b"32", BadKind::Command),
        (b"1 Put cold a 1", BadKind::Command),
        (b"1 snaps", BadKind::Command),
        (b"1 iter 0", BadKind::Command),
        (b"1 views cold", BadKind::Command),
        (b"1 phase", BadKind::Command),
        (b"1 hold 2", BadKind::Count),
        (b"1 put cold a", BadKind::Count),
        (b"1 get cold a 1", BadKind::Count),
        (b"1 flush", BadKind::Count),
        (b"1 set cold rows", BadKind::Count),
        (b"1 snap 1", BadKind::Count),
        (b"1 gets 1 cold", BadKind::Count),
        (b"1 gets cold a", BadKind::Count),
        (b"1 gets 1 cold a b", BadKind::Count),
        (b"1 unsnap", BadKind::Count),
        (b"1 get cold a # no comment", BadKind::Count),
        (b"1 put Cold a 1", BadKind::Name),
        (b"1 pin abcdefghijklmnopqrstuvwxyz0123456", BadKind::Name),
        (b"1 put cold a%4 1", BadKind::Item),
        (b"1 put cold a 1%", BadKind::Item),
        (b"1 put cold %% 1", BadKind::Item),
        (b"1 put cold %4g 1", BadKind::Item),
        (b"1 put cold a \x7f", BadKind::Item),
        (b"1 put cold a \x00", BadKind::Item),
        (b"1 put cold a \r\r\n", BadKind::Item),
        (b"1 put cold a\r1 1", BadKind::Item),
        (b"1 unpin -1", BadKind::Number),
        (b"1 unpin 18446744073709551616", BadKind::Number),
        (b"1 unpin 000000000000000000001", BadKind::Number),
        (b"1 getp a %4", BadKind::Number),
        (b"1 gets cold 1 a", BadKind::Number),
        (b"1 gets x Cold %4", BadKind::Number),
        (b"1 gets 1 Cold %4", BadKind::Name),
        (b"1 gets 1 cold %4", BadKind::Item),
        (b"1 unsnap -1", BadKind::Number),
        (b"1 set cold max_immutable 1x", BadKind::Number),
        (b"1 set cold rows 5", BadKind::Option),
    ] {
        expect_bad(&rt, alloc, line, 1, kind);
    }
}

// Each is read as one command of lane 1.
const READ: [&[u8]; 16] = [
    b"1 compact cold",
    b"1 create cold",
    b"1 open cold",
    b"1 release cold",
    b"1 drop cold",
    b"1 set cold memtable_rows 0",
    b"1 set cold max_immutable 00000000000000000009",
    b"1 hold",
    b"1 unhold",
    b"1 live",
    b"1 purge",
    b"1 scan",
    b"00000000000000000001 snap",
    b"1 gets 18446744073709551615 cold %",
    b"1 unsnap 0",
    b"1 flush abcdefghijklmnopqrstuvwxyz_01234",
];

#[test]
fn reads_each_command_of_one_lane(rt: HostRuntime) {
    let alloc = rt.alloc();
    for line in READ {
        expect_script(&rt, alloc, line, 1, 1);
    }
}

#[test]
fn tests_one_line_in_order(rt: HostRuntime) {
    let alloc = rt.alloc();
    for (line, kind) in [
        (b"0 pot Cold".as_slice(), BadKind::Lane),
        (b"2 pot Cold", BadKind::Command),
        (b"2 put Cold %", BadKind::Count),
        (b"2 put Cold %4 %4", BadKind::Name),
        (b"2 put cold %4 %%", BadKind::Item),
        (b"2 set Cold rows x", BadKind::Name),
        (b"2 set cold rows x", BadKind::Option),
        (b"2 set cold memtable_rows x", BadKind::Number),
        (b"2 put cold a 1", BadKind::Unbuilt),
        (b"32 get cold a", BadKind::Unbuilt),
        (b"1 getp 18446744073709551615 a", BadKind::Unbuilt),
        (b"2 flush cold", BadKind::Unbuilt),
        (b"1 pin abcdefghijklmnopqrstuvwxyz_01234", BadKind::Unbuilt),
        (b"1 unpin 16", BadKind::Unbuilt),
        (b"00000000000000000001 rest", BadKind::Unbuilt),
    ] {
        expect_bad(&rt, alloc, line, 1, kind);
    }
    // The first bad line decides, however the later ones are.
    expect_bad(
        &rt,
        alloc,
        b"1 get cold a\n\n1 rest\n0\n".as_slice(),
        3,
        BadKind::Unbuilt,
    );
    expect_bad(
        &rt,
        alloc,
        b"#\r\nphase\r\n1 put cold a\r\n0".as_slice(),
        3,
        BadKind::Count,
    );
}

#[test]
fn reads_lines_and_words(rt: HostRuntime) {
    let alloc = rt.alloc();
    for (script, line, phase, key, value) in [
        (
            b"1  put cold a%41 %".as_slice(),
            1,
            0,
            b"aA".as_slice(),
            b"".as_slice(),
        ),
        (b"1 put cold % 1\n", 1, 0, b"", b"1"),
        (b"1 put cold a 1\r\n", 1, 0, b"a", b"1"),
        (b"1 put cold a 1\r", 1, 0, b"a", b"1"),
        (b"\t01\tput \t cold a\t!~ \t\n", 1, 0, b"a", b"!~"),
        (b"#\n # 1 hold\n\n \t\n\r\n1 put cold a 1", 6, 0, b"a", b"1"),
        (b"phase\n\tphase \r\n1 put cold a 1", 3, 2, b"a", b"1"),
        (
            b"1 put cold %3c%3C %00%0a%20%25%ff",
            1,
            0,
            b"<<",
            b"\x00\n %\xff",
        ),
        (b"1 put cold a#b #", 1, 0, b"a#b", b"#"),
    ] {
        expect_one(&rt, alloc, script, (line, phase), (key, value));
    }
    let _ = expect_script(&rt, alloc, b"".as_slice(), 1, 0);
    let _ = expect_script(&rt, alloc, b"\n\n".as_slice(), 1, 0);
    let _ = expect_script(&rt, alloc, b"phase\nphase".as_slice(), 3, 0);
    let four = b"1 get default a\nphase\n1 delete a_0 b\n1 put cold a 1\n1 flush cold\n".as_slice();
    let _ = expect_script(&rt, alloc, four, 2, 4);
}

// A byte alone is a line that is skipped, a lane without a command, or no lane.
#[test]
fn reads_each_byte_alone(rt: HostRuntime) {
    let alloc = rt.alloc();
    for byte in 0..=255u8 {
        let script = [byte];
        match byte {
            b'\t' | b'\n' | b'\r' | b' ' | b'#' => {
                let _ = expect_script(&rt, alloc, script.as_slice(), 1, 0);
            }
            b'1'..=b'9' => expect_bad(&rt, alloc, script.as_slice(), 1, BadKind::Command),
            _ => expect_bad(&rt, alloc, script.as_slice(), 1, BadKind::Lane),
        }
    }
}

#[test]
fn takes_500_000_command_lines(rt: HostRuntime) -> Result<(), Fail> {
    let alloc = rt.alloc();
    let mut script = Vec::new(alloc);
    for _ in 0..500_000 {
        script.extend_from_slice(b"1 put cold abcdefgh 12345678\n".as_slice())?;
    }
    script.extend_from_slice(b"# no command\n".as_slice())?;
    let _ = expect_script(&rt, alloc, script.as_slice(), 1, 500_000);
    script.extend_from_slice(b"phase\n0 hold\n0 hold".as_slice())?;
    expect_bad(&rt, alloc, script.as_slice(), 500_003, BadKind::Commands);
    Ok(())
}
