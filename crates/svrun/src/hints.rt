// Lines on standard error that help a person. No contract speaks of them, and no fault at one changes how a run ends.
use sv_run::Status;
use sv_script::{BadKind, BadLine};

// What a line of this kind has wrong, and what would be right.
fn meaning(kind: BadKind) -> &'static str {
    match kind {
        BadKind::Commands => "a script has at most 500,000 command lines",
        BadKind::Lane => "a line begins with its lane, a number from 1 to 32",
        BadKind::Command => "the second word is to be a command, such as put, get or flush",
        BadKind::Count => "the command takes more or fewer words",
        BadKind::Name => "a family's name has 1 to 32 bytes, of a to z, 0 to 9, and _",
        BadKind::Item =>
            "in a key or value, % stands before two hexadecimal digits, or alone for no bytes",
        BadKind::Number => "a number has 1 to 20 decimal digits, and is below 2 to the 64",
        BadKind::Option => "an option is memtable_rows or max_immutable",
        BadKind::Unbuilt =>
            "this program does not have pin, getp, unpin and rest yet, nor lanes from 2 on",
    }
}

fn bad_line(rt: &HostRuntime, bad: BadLine) {
    let _ = eprintln!(rt;
        "svrun: line {}: {}; see docs/SCRIPTS.md",
        bad.line,
        meaning(bad.kind)
    );
}

// What was asked of the folder when it failed: to list it, before the lanes ran; or to remove files, at the end.
fn folder(rt: &HostRuntime, path: &str, ran: bool) {
    let _ = if ran {
        eprintln!(rt;
            "svrun: the folder {path}: a file could not be removed; the report names what is left"
        )
    } else {
        eprintln!(rt; "svrun: the folder {path}: its files could not be listed")
    };
}

/// Says more of an ending than the fixed texts do. `path` is the folder's, and `ran` is whether the lanes ran.
pub fn hint(rt: &HostRuntime, status: Status, path: Option<&str>, ran: bool) {
    match (status, path) {
        (Status::BadScript(bad), _) => bad_line(rt, bad),
        (Status::DirFault, Some(path)) => folder(rt, path, ran),
        _ => {}
    }
}
