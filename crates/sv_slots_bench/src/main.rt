//! Measures what a borrow and its give-back take. `sv_slots_bench PAIRS` prints the nanoseconds of a pair, for 1, 2 and 4
//! threads that make so many pairs each, on families of their own and on one family. `sv_slots_bench PAIRS quiet` only
//! checks that each borrow hits and is kept.
#![tactic(auto)]

ghost use Rattle.std.specs.Prelude.{◌<◌, ◌≤◌};

mod faults;
mod lanes;
mod measures;

use faults::Fault;
use measures::{Measure, Setting};
use std::alloc::AllocError;
use std::env;
use std::io::ErrorKind;
use std::process::ExitCode;
use std::rt::Clock;
use std::sync::Wait;
use std::thread::Threads;

const USAGE: &str = "usage: sv_slots_bench PAIRS [quiet], with 1 to 1000000000 pairs";

const MOST_PAIRS: u64 = 1_000_000_000;

/// The words after the program's name. Where they are not all text there are none, which the program does not take.
fn words(rt: &HostRuntime) -> Result<Vec<String>, AllocError> {
    let mut words = Vec::new(rt.alloc());
    let args = match env::args(rt) {
        Ok(args) => args,
        Err(error) if error.kind() == ErrorKind::OutOfMemory => return Err(AllocError),
        Err(_) => return Ok(words),
    };
    for word in args.skip(1) {
        words.push(word)?;
    }
    Ok(words)
}

/// The number that the word is, if it is within the bounds.
fn number(word: &str) -> Option<u64> {
    match word.parse::<u64>() {
        Ok(number) if number >= 1 && number <= MOST_PAIRS => Some(number),
        _ => None,
    }
}

fn asked(words: &[String]) -> Option<(u64, Measure)> {
    match words {
        [pairs] => Some((number(pairs.as_str())?, Measure::Time)),
        [pairs, word] if word.as_str() == "quiet" => {
            Some((number(pairs.as_str())?, Measure::Quiet))
        }
        _ => None,
    }
}

/// So many threads, on families of their own and on one family.
fn measure<R: Threads + Wait + Clock + Print + AllocGlobal + Sync>(
    rt: &R,
    threads: u8,
    pairs: u64,
    what: Measure,
) -> Result<(), Fault>
    requires { (0 < threads) × (threads ≤ 4) }
{
    let own = Setting {
        threads,
        one_family: false,
        pairs,
    };
    let shared = Setting {
        threads,
        one_family: true,
        pairs,
    };
    measures::perform(rt, rt.alloc(), own, what)?;
    measures::perform(rt, rt.alloc(), shared, what)
}

fn perform<R: Threads + Wait + Clock + Print + AllocGlobal + Sync>(
    rt: &R,
    pairs: u64,
    what: Measure,
) -> Result<(), Fault> {
    measure(rt, 1, pairs, what)?;
    measure(rt, 2, pairs, what)?;
    measure(rt, 4, pairs, what)
}

/// What the words ask for: so many pairs, timed or only checked.
fn task(rt: &HostRuntime) -> Result<(u64, Measure), Fault> {
    let words = words(rt)?;
    asked(words.as_slice()).ok_or(Fault::Words)
}

fn main(rt: HostRuntime) -> ExitCode {
    let done = match task(&rt) {
        Ok((pairs, what)) => perform(&rt, pairs, what),
        Err(fault) => Err(fault),
    };
    let (line, code) = match done {
        Ok(()) => return ExitCode::SUCCESS,
        Err(Fault::Words) => (USAGE, 2),
        Err(Fault::Wrong) => ("a call gave a wrong answer", 1),
        Err(Fault::OutOfMemory) => ("out of memory", 1),
        Err(Fault::Machine) => ("the clock or standard output failed", 1),
    };
    let _ = eprintln!(rt; "{line}");
    ExitCode::from(code)
}
