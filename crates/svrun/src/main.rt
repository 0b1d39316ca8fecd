//! `svrun run` reads a script from standard input, runs it over a folder or a directory in memory, and writes the
//! report to standard output.
#![tactic(auto)]

mod hints;

use crate::hints::hint;
use std::alloc::AllocError;
use std::env;
use std::io::ErrorKind;
use std::process::ExitCode;
use sv_dir::{MemDir, RealDir};
use sv_run::{Status, StdSink, StdSource, dir_word, run, run_without_memory};

// The words after the program's name. Where they are not all text there are none, which the program does not take.
fn words(rt: &HostRuntime) -> Result<Vec<String>, AllocError> {
    let mut words = Vec::new(rt.alloc());
    let args = match env::args(rt) {
        Ok(args) => args,
        Err(error) if error.kind() == ErrorKind::OutOfMemory => return Err(AllocError),
        Err(_) => return Ok(words),
    };
    for word in args.skip(1) {
        words.push(word)?;
    }
    Ok(words)
}

// There was no memory for what the run is handed, so it is handed a folder that it asks nothing.
fn run_short(rt: HostRuntime, sink: &mut StdSink<HostRuntime>) -> Status {
    let unasked = RealDir::new(rt, rt.alloc(), String::new(rt.alloc()));
    run_without_memory(unasked, sink).status
}

// The run over the folder at the path.
fn run_over_folder(
    rt: HostRuntime,
    words: &[String],
    path: &str,
    sink: &mut StdSink<HostRuntime>,
) -> Status {
    let mut source = StdSource::new(rt);
    match path.to_string(rt.alloc()) {
        Ok(owned) => {
            let folder = RealDir::new(rt, rt.alloc(), owned);
            let ran = run(rt.alloc(), words, &mut source, folder, sink);
            hint(&rt, ran.status, Some(path), ran.done.is_some());
            ran.status
        }
        Err(_) => run_short(rt, sink),
    }
}

// The run over a directory in memory, which is empty.
fn run_over_memory(rt: HostRuntime, words: &[String], sink: &mut StdSink<HostRuntime>) -> Status {
    let alloc = rt.alloc();
    let mut source = StdSource::new(rt);
    match MemDir::new(alloc, Vec::new(alloc), Vec::new(alloc)) {
        Ok(empty) => {
            let status = run(alloc, words, &mut source, empty, sink).status;
            hint(&rt, status, None, false);
            status
        }
        Err(_) => run_short(rt, sink),
    }
}

fn main(rt: HostRuntime) -> ExitCode {
    let mut sink = StdSink::new(rt);
    let status = match words(&rt) {
        Ok(words) => match dir_word(words.as_slice()) {
            Some(path) => run_over_folder(rt, words.as_slice(), path, &mut sink),
            None => run_over_memory(rt, words.as_slice(), &mut sink),
        },
        Err(_) => run_short(rt, &mut sink),
    };
    ExitCode::from(status.exit_code())
}
