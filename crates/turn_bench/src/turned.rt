//! Counting under a turn.
ghost use Rattle.std.specs.Prelude.{◌≡◌, ◌<◌, ◌≤◌, ℕ, All, length, slice_index_or};
ghost use Rattle.eco_turn.specs.Pass.{HasLeft, pass_number};
ghost use Rattle.eco_turn.specs.Turn.{IsPassOf};

use crate::count::Count;
use crate::task::Task;
use anyhow::{Result, bail};
use eco_turn::{Pass, Turn};
use std::alloc::Global;
use std::sync::Wait;
use std::thread;
use std::thread::Threads;

/// Enters and leaves so often, and counts each time.
fn pass_through<W: Wait>(rt: &W, turn: &Turn<Count>, pass: &mut Pass<(), ()>, task: &Task)
    requires { IsPassOf (λ _. tt) turn.now pass.old × HasLeft pass.old }
    ensures pass { IsPassOf (λ _. tt) turn.now pass.new × HasLeft pass.new }
    ensures number { pass_number pass.new ≡ pass_number pass.old }
{
    'pairs: for _ in 0..task.pairs {
        let mut held = turn.enter(rt, pass);
        held.get().add(task.rounds);
        Turn::leave(held, pass);
    }
}

/// Each pass does so, in a thread of its own.
fn pass_in_threads<W: Wait + Threads + Sync>(
    rt: &W,
    turn: &Turn<Count>,
    passes: &mut [Pass<(), ()>],
    task: &Task,
)
    requires { All (λ p. IsPassOf (λ _. tt) turn.now p × HasLeft p) passes.old }
    ensures passes { All (λ p. IsPassOf (λ _. tt) turn.now p × HasLeft p) passes.new }
    ensures count { length passes.new ≡ length passes.old }
    ensures numbers { (k : ℕ) (d : _) → k < length passes.old
        → pass_number (slice_index_or passes.new k d)
        ≡ pass_number (slice_index_or passes.old k d) }
{
    if passes.is_empty() {
        return;
    }
    let count = passes.len();
    thread::for_each_mut(
        rt,
        passes,
        count,
        &|_, pass| pass_through(rt, turn, pass, task),
    );
}

/// How many were counted by so many threads, each with a pass of its own.
pub fn count_turned<W: Wait + Threads + Sync>(
    rt: &W,
    alloc: Global,
    threads: u32,
    task: &Task,
) -> Result<u64>
    requires threads { (0 < threads) × (threads ≤ 64) }
{
    let Ok((turn, mut passes)) = Turn::new(alloc, Count::new(), threads) else {
        bail!("out of memory");
    };
    pass_in_threads(rt, &turn, passes.as_mut_slice(), task);
    Ok(turn.close(passes).passed)
}
