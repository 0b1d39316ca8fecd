// The top call.
ghost use Rattle.std.specs.Prelude.{◌≡◌, ◌≤◌, List, Option, ℕ, IfOk, None, Some, map, string_bytes};
ghost use Rattle.sv_run.specs.Ends.{Completes, Ends, Follows, Helps, IsDueText, report_of};
ghost use Rattle.sv_run.specs.Handed.{Directory, Input};
ghost use Rattle.sv_run.specs.Statuses.{status_at, status_of_failure};
ghost use Rattle.sv_run.specs.Transfers.{TakesAtMost};
ghost use Rattle.sv_run.specs.declared.outcomes.Status.TheVariants as status;

use crate::closing::run_script;
use crate::opening::first_number;
use crate::outcomes::{Done, Ended, Ran, Status};
use crate::scripts::read_script;
use crate::streams::{Sink, Source};
use crate::transfers::write_all;
use crate::words::{are_run, is_help};
use std::alloc::Global;
use sv_dir::{Dir, DirError};
use sv_model::{End, OutOfMemory};
use sv_script::{Outcome, no_memory_text, outcome_text, report_text};

fn without_done(status: Status) -> Ended
    ensures { result ≡ record { status = status; done = None } }
{
    Ended { status, done: None }
}

fn status_of(error: DirError) -> Status
    ensures { result ≡ status_of_failure error }
{
    match error {
        DirError::Failed => Status::DirFault,
        DirError::OutOfMemory => Status::OutOfMemory,
    }
}

fn status_at(end: End) -> Status
    ensures { result ≡ status_at end }
{
    match end {
        End::Clean => Status::Ok,
        End::DirFault => Status::DirFault,
        End::OutOfMemory => Status::OutOfMemory,
    }
}

// The run of a script over a directory, up to the writing.
fn closed(done: Done) -> Ended
    ensures { result ≡ record { status = status_at done.end; done = Some done } }
{
    Ended {
        status: status_at(done.end),
        done: Some(done),
    }
}

// All but the writing.
fn outcome<S: Source, D: Dir>(alloc: Global, words: &[String], source: &mut S, dir: &mut D) -> Ended
    ensures follows { Follows (record { words = map string_bytes words.now; left = S.left source.old; before = S.faults source.old; now = S.faults source.new })
        (record { files = D.files dir.old; later = D.files dir.new; before = D.faults dir.old; now = D.faults dir.new }) result.done result.status }
    ensures took { TakesAtMost 16777217 (S.left source.old) (S.left source.new) }
    ensures reads { S.faults source.old ≤ S.faults source.new }
    ensures dirs { D.faults dir.old ≤ D.faults dir.new }
{
    if is_help(words) {
        return without_done(Status::Ok);
    }
    if !are_run(words) {
        return without_done(Status::Usage);
    }
    let script = match read_script(alloc, source) {
        Ok(script) => script,
        Err(status) => return without_done(status),
    };
    let first = match first_number(dir) {
        Ok(first) => first,
        Err(error) => return without_done(status_of(error)),
    };
    match run_script(alloc, &script, first, dir) {
        Ok(done) => closed(done),
        Err(_) => without_done(Status::OutOfMemory),
    }
}

fn done_text(alloc: Global, done: &Done) -> Result<Vec<u8>, OutOfMemory>
    ensures { IfOk result (λ text. text.items ≡ report_of done.now) }
{
    let summary = done.books.summary(done.end)?;
    report_text(alloc, done.lanes.as_slice(), &summary)
}

// The text that is due.
fn text_of(alloc: Global, ended: &Ended) -> Result<Vec<u8>, OutOfMemory>
    ensures { IfOk result (λ text. IsDueText ended.now.done ended.now.status text.items) }
{
    let outcome = match (ended.status, &ended.done) {
        (Status::Ok | Status::DirFault, Some(done)) => return done_text(alloc, done),
        (Status::OutOfMemory, Some(done)) if done.end == End::OutOfMemory => {
            return done_text(alloc, done);
        }
        (Status::Ok, None) | (Status::Usage, _) => Outcome::Usage,
        (Status::BadScript(bad), _) => Outcome::BadScript(bad),
        (Status::ScriptTooLong, _) => Outcome::ScriptTooLong,
        (Status::ReadFault, _) => Outcome::ReadFault,
        (Status::DirFault, None) => Outcome::DirFault,
        _ => Outcome::OutOfMemory,
    };
    outcome_text(alloc, outcome)
}

// Writes the text that is due of this run.
fn send<K: Sink>(ended: Ended, text: &[u8], sink: &mut K) -> Ended
    requires { IsDueText ended.done ended.status text.now }
    ensures ends { (i : Input) (d : Directory) → Follows i d ended.done ended.status
        → Ends i d (record { old = K.written sink.old; new = K.written sink.new; before = K.faults sink.old; now = K.faults sink.new }) result.done result.status }
    ensures later { K.faults sink.old ≤ K.faults sink.new }
{
    match write_all(sink, text) {
        Ok(()) => ended,
        Err(_) => Ended {
            status: Status::WriteFault,
            done: ended.done,
        },
    }
}

fn without_memory(ended: Ended) -> Ended
    ensures { result ≡ record { status = status.OutOfMemory; done = ended.done } }
{
    Ended {
        status: Status::OutOfMemory,
        done: ended.done,
    }
}

fn tell<K: Sink>(alloc: Global, ended: Ended, sink: &mut K) -> Ended
    ensures ends { (i : Input) (d : Directory) → Follows i d ended.done ended.status
        → Ends i d (record { old = K.written sink.old; new = K.written sink.new; before = K.faults sink.old; now = K.faults sink.new }) result.done result.status }
    ensures later { K.faults sink.old ≤ K.faults sink.new }
{
    match text_of(alloc, &ended) {
        Ok(text) => send(ended, text.as_slice(), sink),
        Err(_) => send(without_memory(ended), no_memory_text(), sink),
    }
}

fn handed_back<D>(ended: Ended, dir: D) -> Ran<D>
    ensures { result ≡ record { status = ended.status; done = ended.done; dir = dir } }
{
    Ran {
        status: ended.status,
        done: ended.done,
        dir,
    }
}

/// Runs the script that the source gives over the directory, where the words are `run`, alone or with a path, and
/// writes the report to the sink; or the usage text where the one word is `--help`, and the text that says why nothing
/// ran else. Reads at most 16,777,217 bytes, and lists
/// the directory once, after the script was read. Hands the directory back.
///
/// By cases on the status, the contract says what the source had, what stands in the books and in the directory,
/// that each reply fits them, and which text was written. `ReadFault`, `WriteFault` and `DirFault` come only where
/// the count of faults of that stream or directory rose. It does not say when memory is wanted: `OutOfMemory` may
/// stand in place of any other status.
pub fn run<S: Source, K: Sink, D: Dir>(
    alloc: Global,
    words: &[String],
    source: &mut S,
    dir: D,
    sink: &mut K,
) -> Ran<D>
    // How it ended, and what was written.
    ensures ends { Ends (record { words = map string_bytes words.now; left = S.left source.old; before = S.faults source.old; now = S.faults source.new })
        (record { files = D.files dir; later = D.files result.dir; before = D.faults dir; now = D.faults result.dir })
        (record { old = K.written sink.old; new = K.written sink.new; before = K.faults sink.old; now = K.faults sink.new }) result.done result.status }
    // A script is answered where nothing fails.
    ensures complete { Completes (record { words = map string_bytes words.now; left = S.left source.old; before = S.faults source.old; now = S.faults source.new })
        (record { files = D.files dir; later = D.files result.dir; before = D.faults dir; now = D.faults result.dir })
        (record { old = K.written sink.old; new = K.written sink.new; before = K.faults sink.old; now = K.faults sink.new }) result.status }
    // Help is given where nothing fails.
    ensures helps { Helps (record { words = map string_bytes words.now; left = S.left source.old; before = S.faults source.old; now = S.faults source.new })
        (record { old = K.written sink.old; new = K.written sink.new; before = K.faults sink.old; now = K.faults sink.new }) result.status }
    ensures took { TakesAtMost 16777217 (S.left source.old) (S.left source.new) }
    ensures reads { S.faults source.old ≤ S.faults source.new }
    ensures writes { K.faults sink.old ≤ K.faults sink.new }
    ensures dirs { D.faults dir ≤ D.faults result.dir }
{
    let mut dir = dir;
    let ended = outcome(alloc, words, source, &mut dir);
    let told = tell(alloc, ended, sink);
    handed_back(told, dir)
}

/// For a caller that had no memory for the words or the directory's path: writes `no memory`, and answers so. No
/// lane ran, nothing was read, and nothing was asked of the directory.
pub fn run_without_memory<K: Sink, D: Dir>(dir: D, sink: &mut K) -> Ran<D>
    ensures ends { (words : List (List ℕ)) (left : Option (List ℕ)) (faults : ℕ)
        → Ends (record { words = words; left = left; before = faults; now = faults })
        (record { files = D.files dir; later = D.files result.dir; before = D.faults dir; now = D.faults result.dir })
        (record { old = K.written sink.old; new = K.written sink.new; before = K.faults sink.old; now = K.faults sink.new }) result.done result.status }
    ensures same { result.dir ≡ dir }
    ensures writes { K.faults sink.old ≤ K.faults sink.new }
{
    let told = send(without_done(Status::OutOfMemory), no_memory_text(), sink);
    handed_back(told, dir)
}
