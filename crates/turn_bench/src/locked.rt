//! Counting under a mutex of std.
ghost use Rattle.std.specs.Prelude.{◌<◌, ◌≤◌};

use crate::count::Count;
use crate::task::Task;
use std::sync::{Mutex, Wait};
use std::thread;
use std::thread::Threads;

/// Locks and unlocks so often, and counts each time.
fn lock_through<W: Wait>(rt: &W, mutex: &Mutex<Count>, task: &Task) {
    for _ in 0..task.pairs {
        mutex.lock(rt).add(task.rounds);
    }
}

/// How many were counted by so many threads.
pub fn count_locked<W: Wait + Threads + Sync>(rt: &W, threads: u32, task: &Task) -> u64
    requires threads { (0 < threads) × (threads ≤ 64) }
{
    let mutex = Mutex::new(Count::new());
    let shared = &mutex;
    // A place for each thread; nothing is written to it.
    let mut places = [0u8; 64];
    let count = threads as usize;
    thread::for_each_mut(
        rt,
        &mut places[..count],
        count,
        &|_, _| lock_through(rt, shared, task),
    );
    mutex.into_inner().passed
}
