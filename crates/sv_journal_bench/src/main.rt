//! Fills a journal, to measure what memory it takes. `sv_journal_bench WRITES KEY VALUE` puts so many writes, each with a
//! key and a value of so many bytes, and prints how many the journal took.
#![tactic(auto)]

ghost use Rattle.std.specs.Prelude.{◌<◌, IfOk};

use std::alloc::{AllocError, Global};
use std::env;
use std::io::ErrorKind;
use std::process::ExitCode;
use sv_journal::Journal;
use sv_model::{FamilyId, Key, MAX_KEY, MAX_VALUE, MAX_WRITES, MemId, Op, Refusal, Value, Write};

const USAGE: &str =
    "usage: sv_journal_bench WRITES KEY VALUE, with keys of 1 to 64 bytes and values of 0 to 1024";

/// What is asked for: so many writes, with keys and values of so many bytes.
#[derive(Clone, Copy)]
struct Task {
    writes: u32,
    key: usize,
    value: usize,
}

/// The words after the program's name. Where they are not all text there are none, which the program does not take.
fn words(rt: &HostRuntime) -> Result<Vec<String>, AllocError> {
    let mut words = Vec::new(rt.alloc());
    let args = match env::args(rt) {
        Ok(args) => args,
        Err(error) if error.kind() == ErrorKind::OutOfMemory => return Err(AllocError),
        Err(_) => return Ok(words),
    };
    for word in args.skip(1) {
        words.push(word)?;
    }
    Ok(words)
}

fn asked(words: &[String]) -> Option<Task> {
    let [writes, key, value] = words else {
        return None;
    };
    Some(Task {
        writes: writes.as_str().parse::<u32>().ok()?,
        key: key.as_str().parse::<usize>().ok()?,
        value: value.as_str().parse::<usize>().ok()?,
    })
}

fn write(alloc: Global, task: Task) -> Result<Write, Refusal>
    ensures { IfOk result (λ write. write.family < 16) }
{
    let key = [b'k'; MAX_KEY];
    let value = [b'v'; MAX_VALUE];
    let key = &key[..task.key.min(MAX_KEY)];
    let value = &value[..task.value.min(MAX_VALUE)];
    Ok(Write {
        family: FamilyId(0),
        key: Key::new(alloc, key)?,
        op: Op::Put(Value::new(alloc, value)?),
        mem: MemId(1),
        lane: 0,
    })
}

/// How many of the writes the journal took.
fn fill(alloc: Global, task: Task) -> Result<u64, Refusal> {
    let mut journal = Journal::new(alloc);
    for _ in 0..task.writes {
        journal.reserve()?;
        if journal.len() >= MAX_WRITES as u64 {
            return Ok(journal.len());
        }
        let write = write(alloc, task)?;
        journal.push(write);
    }
    Ok(journal.len())
}

fn run(rt: &HostRuntime) -> Option<u64> {
    let Ok(words) = words(rt) else {
        return None;
    };
    let task = asked(words.as_slice())?;
    fill(rt.alloc(), task).ok()
}

fn main(rt: HostRuntime) -> ExitCode {
    let Some(writes) = run(&rt) else {
        let _ = eprintln!(rt; "{USAGE}");
        return ExitCode::from(2);
    };
    let _ = println!(rt; "writes {writes}");
    ExitCode::SUCCESS
}
