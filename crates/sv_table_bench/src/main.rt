//! Measures the encoding, decoding, checking and merging of tables, and looking up keys in them. `sv_table_bench ROWS`
//! prints the rows or look-ups a second of each; `sv_table_bench ROWS TABLES` what a row takes in a merge of so many
//! tables, which have so many rows together; and `sv_table_bench ROWS quiet` only checks that a table is encoded to its
//! bytes and that each key is found.
#![tactic(auto)]

mod faults;
mod measures;
mod merges;
mod samples;

use faults::Fault;
use samples::Keys;
use std::alloc::AllocError;
use std::env;
use std::io::ErrorKind;
use std::process::ExitCode;
use std::rt::Clock;

const USAGE: &str =
    "usage: sv_table_bench ROWS [quiet | TABLES], with 1 to 1000000 rows and 1 to 1000 tables";

/// What is asked for.
#[derive(Clone, Copy)]
enum Measure {
    /// Each call in turn.
    Calls,
    /// Merges of so many tables.
    Merges(u32),
    /// Nothing, but to check the answers.
    Quiet,
}

/// What the words ask for.
#[derive(Clone, Copy)]
struct Task {
    rows: u32,
    measure: Measure,
}

/// The words after the program's name. Where they are not all text there are none, which the program does not take.
fn words(rt: &HostRuntime) -> Result<Vec<String>, AllocError> {
    let mut words = Vec::new(rt.alloc());
    let args = match env::args(rt) {
        Ok(args) => args,
        Err(error) if error.kind() == ErrorKind::OutOfMemory => return Err(AllocError),
        Err(_) => return Ok(words),
    };
    for word in args.skip(1) {
        words.push(word)?;
    }
    Ok(words)
}

/// The number that the word is, if it is within the bounds.
fn number(word: &str, greatest: u32) -> Option<u32> {
    match word.parse::<u32>() {
        Ok(number) if number >= 1 && number <= greatest => Some(number),
        _ => None,
    }
}

fn asked(words: &[String]) -> Option<Task> {
    let (rows, measure) = match words {
        [rows] => (rows, Measure::Calls),
        [rows, word] if word.as_str() == "quiet" => (rows, Measure::Quiet),
        [rows, tables] => (rows, Measure::Merges(number(tables.as_str(), 1000)?)),
        _ => return None,
    };
    Some(Task {
        rows: number(rows.as_str(), 1_000_000)?,
        measure,
    })
}

fn perform(rt: &(impl Clock + Print + AllocGlobal), task: Task) -> Result<(), Fault> {
    let rows = task.rows;
    let alloc = rt.alloc();
    let keys = Keys {
        first: 0,
        step: 1,
        count: rows,
    };
    match task.measure {
        Measure::Merges(tables) => merges::of_tables(rt, alloc, rows, tables),
        Measure::Quiet => {
            samples::check(alloc, &samples::text(alloc, 0, keys)?)?;
            println!(rt; "rows {rows} ok")?;
            Ok(())
        }
        Measure::Calls => measures::all(rt, alloc, &samples::text(alloc, 0, keys)?, rows),
    }
}

fn run(rt: &HostRuntime) -> Result<(), Fault> {
    let words = words(rt)?;
    match asked(words.as_slice()) {
        Some(task) => perform(rt, task),
        None => Err(Fault::Words),
    }
}

fn main(rt: HostRuntime) -> ExitCode {
    let (line, code) = match run(&rt) {
        Ok(()) => return ExitCode::SUCCESS,
        Err(Fault::Words) => (USAGE, 2),
        Err(Fault::Wrong) => ("a call gave a wrong answer", 1),
        Err(Fault::OutOfMemory) => ("out of memory", 1),
        Err(Fault::Machine) => ("the clock or standard output failed", 1),
    };
    let _ = eprintln!(rt; "{line}");
    ExitCode::from(code)
}
