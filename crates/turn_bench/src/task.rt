//! The task that the command line gives.
use anyhow::{Context, Result, ensure};
use std::env;
use std::rt::Env;

/// What is to be counted.
#[derive(Drop)]
pub struct Task {
    /// How often each thread enters and leaves.
    pub pairs: u32,
    /// How long it works while it is inside.
    pub rounds: u32,
    pub times: bool,
}

/// Reads the command line's words after the program's name.
pub fn read_task<R: Env + AllocGlobal>(rt: &R) -> Result<Task> {
    let mut words = env::args(rt)?.skip(1);
    let pairs = words
        .next()
        .context("no number of pairs")?
        .parse::<u32>()
        .context("pairs")?;
    let rounds = words
        .next()
        .context("no number of rounds")?
        .parse::<u32>()
        .context("rounds")?;
    ensure!(0 < pairs && pairs <= 100_000_000, "1 to 100000000 pairs");
    let times = words.next().is_some();
    Ok(Task {
        pairs,
        rounds,
        times,
    })
}
