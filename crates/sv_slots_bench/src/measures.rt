// What a pair takes, on so many threads.
ghost use Rattle.std.specs.Prelude.{◌<◌, ◌≤◌, All, IfOk, length};
ghost use Rattle.sv_slots.specs.Known.{table_of};
ghost use Rattle.sv_slots_bench.specs.Ready.{IsReady};
ghost use Rattle.sv_slots_tests.specs.Unused.{AreUnused};

use crate::faults::Fault;
use crate::lanes::{Work, run};
use std::alloc::{AllocError, Global};
use std::rt::Clock;
use std::sync::Wait;
use std::thread::{Threads, for_each_mut};
use std::time::{Duration, Instant};
use sv_slots::{Core, LaneSeat};
use sv_slots_tests::{World, open};

/// What is asked for.
#[derive(Clone, Copy)]
pub enum Measure {
    Time,
    /// Nothing, but to check the answers.
    Quiet,
}

/// So many threads make so many pairs each, on one family or each on its own.
#[derive(Clone, Copy)]
pub struct Setting {
    pub threads: u8,
    pub one_family: bool,
    pub pairs: u64,
}

// The family of the thread of that number.
fn family_of(one_family: bool, number: usize) -> u8
    requires { number < 4 }
    ensures { result < 4 }
{
    if one_family { 0 } else { number as u8 }
}

// The works of the threads, each with its lane and its family.
fn works(
    alloc: Global,
    _core: &Core<World>,
    mut seats: Vec<LaneSeat<World>>,
    one_family: bool,
) -> Result<Vec<Work>, AllocError>
    requires { AreUnused (table_of _core.now) seats.items × (length seats.items ≤ 4) }
    ensures { IfOk result (λ v. All (IsReady (table_of _core.now)) v.items) }
{
    let mut works = Vec::new(alloc);
    while let Some(seat) = seats.pop() {
        let family = family_of(one_family, seats.len());
        works.push(Work {
            seat,
            family,
            done: 0,
            apart: [0; 16],
        })?;
    }
    Ok(works)
}

// Runs each work in a thread of its own, where one can be made.
fn run_all<R: Threads + Wait + Sync>(
    rt: &R,
    alloc: Global,
    core: &Core<World>,
    works: &mut [Work],
    pairs: u64,
)
    requires { All (IsReady (table_of core.now)) works.old }
{
    let threads = works.len();
    if threads > 0 {
        for_each_mut(
            rt,
            works,
            threads,
            &|_, work| { run(rt, alloc, core, work, pairs) },
        );
    }
}

fn tell(rt: &impl Print, setting: Setting, took: Duration) -> Result<(), Fault> {
    let nanos = u64::try_from(took.as_nanos()).unwrap_or(u64::MAX);
    let tenths = nanos.saturating_mul(10) / setting.pairs.max(1);
    let families = if setting.one_family {
        "one family"
    } else {
        "own families"
    };
    let threads = setting.threads;
    println!(rt;
        "threads {threads}, {families}: {}.{} ns a pair",
        tenths / 10,
        tenths % 10
    )?;
    Ok(())
}

/// Makes the pairs of a setting.
pub fn perform<R: Threads + Wait + Clock + Print + Sync>(
    rt: &R,
    alloc: Global,
    setting: Setting,
    measure: Measure,
) -> Result<(), Fault>
    requires { (0 < setting.threads) × (setting.threads ≤ 4) }
{
    let (core, seats) = open(alloc, setting.threads)?;
    let mut works = works(alloc, &core, seats, setting.one_family)?;
    let start = Instant::now(rt)?;
    run_all(rt, alloc, &core, works.as_mut_slice(), setting.pairs);
    let took = start.elapsed(rt)?;
    for work in &works {
        if work.done != setting.pairs {
            return Err(Fault::Wrong);
        }
    }
    match measure {
        Measure::Time => tell(rt, setting, took),
        Measure::Quiet => {
            let threads = setting.threads;
            println!(rt; "threads {threads} ok")?;
            Ok(())
        }
    }
}
