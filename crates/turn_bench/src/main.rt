//! Times passes that enter and leave one turn, beside threads that lock one mutex, at the same work:
//! turn_bench PAIRS ROUNDS [times]
#![tactic(auto)]

ghost use Rattle.std.specs.Prelude.{◌<◌, ◌≤◌};

mod count;
mod locked;
mod task;
mod turned;

use anyhow::Result;
use locked::count_locked;
use std::rt::{Clock, Env};
use std::sync::Wait;
use std::thread::Threads;
use std::time::{Duration, Instant};
use task::{Task, read_task};
use turned::count_turned;

/// Counts with so many threads, under a turn and then under a mutex, and prints of each whether each pair was counted
/// and, where that is asked for, how many there were in a second.
fn measure<R: Clock + Print + AllocGlobal + Wait + Threads + Sync>(
    rt: &R,
    task: &Task,
    threads: u32,
) -> Result<()>
    requires threads { (0 < threads) × (threads ≤ 64) }
{
    let begun = Instant::now(rt)?;
    let turned = count_turned(rt, rt.alloc(), threads, task)?;
    let between = Instant::now(rt)?;
    let locked = count_locked(rt, threads, task);
    let ended = Instant::now(rt)?;
    let all = u64::from(task.pairs) * u64::from(threads);
    let counted = (turned == all, locked == all);
    println!(rt;
        "{threads} threads: all counted: turn {}, mutex {}",
        counted.0, counted.1
    )?;
    if task.times {
        let turn = rate(all, between.duration_since(begun));
        let mutex = rate(all, ended.duration_since(between));
        println!(rt; "turn {threads} threads: {turn} pairs/s")?;
        println!(rt; "mutex {threads} threads: {mutex} pairs/s")?;
    }
    Ok(())
}

/// How many there were in a second.
fn rate(pairs: u64, time: Duration) -> u128 {
    u128::from(pairs) * 1_000_000_000 / time.as_nanos().max(1)
}

fn run<R: Env + Clock + Print + AllocGlobal + Wait + Threads + Sync>(rt: &R) -> Result<()> {
    let task = read_task(rt)?;
    measure(rt, &task, 1)?;
    measure(rt, &task, 2)?;
    measure(rt, &task, 4)
}

fn main(rt: HostRuntime) -> Result<()> {
    run(&rt)
}
