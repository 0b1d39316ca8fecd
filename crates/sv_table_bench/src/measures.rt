// How many rows, or look-ups, a second each call takes in.
ghost use Rattle.sv_model.specs.TableText.{IsTableFile, IsWellFormed};

use crate::faults::Fault;
use crate::samples::{digits, found, found_by, leap};
use std::alloc::Global;
use std::rt::Clock;
use std::time::{Duration, Instant};
use sv_model::{Key, Table};
use sv_table::{Checked, Hit, check, check_and_find, decode, encode, find_in};

/// A call at tables of so many rows, made so often.
#[derive(Clone, Copy)]
struct Series {
    rows: u32,
    repeats: u32,
}

/// Prints a call's line: `rows` is how many rows each table has, and `done` how many were taken in or looked up.
fn tell(rt: &impl Print, call: &str, rows: u32, done: u64, took: Duration) -> Result<(), Fault> {
    let micros = u64::try_from(took.as_micros()).unwrap_or(u64::MAX).max(1);
    let rate = done.saturating_mul(1_000_000) / micros;
    println!(rt; "{call} rows {rows}: {rate} a second")?;
    Ok(())
}

fn decodes(
    rt: &(impl Clock + Print),
    alloc: Global,
    text: &[u8],
    series: Series,
) -> Result<(), Fault> {
    let start = Instant::now(rt)?;
    let mut done: u64 = 0;
    for _ in 0..series.repeats {
        let table = decode(alloc, text)?;
        done = done.saturating_add(table.rows.as_slice().len() as u64);
    }
    tell(rt, "decode", series.rows, done, start.elapsed(rt)?)
}

fn encodes(
    rt: &(impl Clock + Print),
    alloc: Global,
    table: &Table,
    series: Series,
) -> Result<(), Fault>
    requires { let t = table.now in IsWellFormed t.from t.to t.bottom t.rows }
{
    let start = Instant::now(rt)?;
    let mut done: u64 = 0;
    for _ in 0..series.repeats {
        let text = encode(alloc, table)?;
        if text.is_empty() {
            return Err(Fault::Wrong);
        }
        done = done.saturating_add(u64::from(series.rows));
    }
    tell(rt, "encode", series.rows, done, start.elapsed(rt)?)
}

/// Each round begins at another row; else the compiler would make one round and take its answer for all.
fn finds(rt: &(impl Clock + Print), table: &Table, series: Series) -> Result<(), Fault> {
    let start = Instant::now(rt)?;
    let mut done: u64 = 0;
    for round in 0..series.repeats {
        done = done.saturating_add(found(table, round as usize));
    }
    tell(rt, "find", series.rows, done, start.elapsed(rt)?)
}

fn checks(rt: &(impl Clock + Print), text: &[u8], series: Series) -> Result<(), Fault> {
    let start = Instant::now(rt)?;
    let mut done: u64 = 0;
    for _ in 0..series.repeats {
        match check(text) {
            Ok(head) => done = done.saturating_add(u64::from(head.count)),
            Err(_) => return Err(Fault::Wrong),
        }
    }
    tell(rt, "check", series.rows, done, start.elapsed(rt)?)
}

/// Files in memory, with the places of their rows.
fn indexes(
    rt: &(impl Clock + Print),
    alloc: Global,
    text: &[u8],
    series: Series,
) -> Result<(), Fault> {
    let start = Instant::now(rt)?;
    let mut done: u64 = 0;
    for _ in 0..series.repeats {
        let file = Checked::new(text.to_vec(alloc)?)?;
        done = done.saturating_add(u64::from(file.head().count));
    }
    tell(rt, "Checked::new", series.rows, done, start.elapsed(rt)?)
}

/// Look-ups in bytes, of which each goes over half of the rows; so there are few of them.
fn finds_in(
    rt: &(impl Clock + Print),
    alloc: Global,
    text: &[u8],
    series: Series,
) -> Result<(), Fault>
    requires { IsTableFile text.now }
{
    let start = Instant::now(rt)?;
    let mut done: u64 = 0;
    for round in 0..series.repeats {
        let number = leap(round, series.rows);
        let Ok(key) = Key::new(alloc, &digits(number)) else {
            return Err(Fault::OutOfMemory);
        };
        match find_in(text, &key, u64::MAX) {
            Some(Hit::Put(_)) => done = done.saturating_add(1),
            _ => return Err(Fault::Wrong),
        }
    }
    tell(rt, "find_in", series.rows, done, start.elapsed(rt)?)
}

/// Look-ups that check the bytes on the way, as a read of a file does.
fn checks_and_finds(
    rt: &(impl Clock + Print),
    alloc: Global,
    text: &[u8],
    series: Series,
) -> Result<(), Fault> {
    let start = Instant::now(rt)?;
    let mut done: u64 = 0;
    for round in 0..series.repeats {
        let number = leap(round, series.rows);
        let Ok(key) = Key::new(alloc, &digits(number)) else {
            return Err(Fault::OutOfMemory);
        };
        match check_and_find(text, &key, u64::MAX) {
            Ok((_, Some(Hit::Put(_)))) => done = done.saturating_add(1),
            _ => return Err(Fault::Wrong),
        }
    }
    tell(rt, "check_and_find", series.rows, done, start.elapsed(rt)?)
}

fn finds_by(
    rt: &(impl Clock + Print),
    file: &Checked,
    table: &Table,
    series: Series,
) -> Result<(), Fault> {
    let start = Instant::now(rt)?;
    let mut done: u64 = 0;
    for round in 0..series.repeats {
        done = done.saturating_add(found_by(file, table, round as usize));
    }
    tell(rt, "Checked::find", series.rows, done, start.elapsed(rt)?)
}

/// Each call in turn, over a table of these bytes, of so many rows. Each takes in some two million rows.
pub fn all(rt: &(impl Clock + Print), alloc: Global, text: &[u8], rows: u32) -> Result<(), Fault> {
    let series = Series {
        rows,
        repeats: 2_000_000 / rows.max(1),
    };
    let table = decode(alloc, text)?;
    let file = Checked::new(text.to_vec(alloc)?)?;
    encodes(rt, alloc, &table, series)?;
    decodes(rt, alloc, text, series)?;
    checks(rt, text, series)?;
    indexes(rt, alloc, text, series)?;
    finds(rt, &table, series)?;
    finds_by(rt, &file, &table, series)?;
    checks_and_finds(rt, alloc, text, series)?;
    match check(text) {
        Ok(_) => finds_in(rt, alloc, text, series),
        Err(_) => Err(Fault::Wrong),
    }
}
