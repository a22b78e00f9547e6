//! The counts of a disk in memory, and which of its calls are to fail.
ghost use Rattle.std.specs.Prelude.{◌≡◌};
ghost use Rattle.eco_common.specs.Causes.{HasCause};

use eco_common::Failed;
use std::alloc::AllocError;

/// Why a call of a disk in memory failed.
#[derive(Clone, Copy, Debug, PartialEq, Eq)]
pub enum Cause {
    /// It was to fail.
    Injected,
    Memory,
}

impl From<AllocError> for Cause {
    ghost use Rattle.std.specs.Prelude.{◌≡◌};
    ghost use Rattle.eco_disk.specs.declared.counter.Cause.TheVariants.{Memory};

    ghost from_gives = { λ _ cause. cause ≡ Memory };

    fn from(_: AllocError) -> Self {
        Cause::Memory
    }
}

#[derive(Drop)]
pub struct Counter {
    /// The numbers of the calls that are to fail, from 1.
    pub failing: Vec<u64>,
    /// The number of the last call.
    pub asked: u64,
    /// How many calls failed.
    pub faults: u64,
    /// How many of these found no memory.
    pub starved: u64,
}

impl Counter {
    ghost use Rattle.eco_disk.specs.Counter.{is_injected, Tells};
    ghost use Rattle.eco_common.specs.Causes.{next_count};

    /// Counts a call, and answers whether it is to fail.
    pub fn next(&mut self) -> bool
        ensures counts { self.new ≡ record self.old { asked = next_count self.old.asked } }
        ensures injected { result ≡ is_injected self.old.failing.items self.new.asked }
    {
        self.asked = self.asked.saturating_add(1);
        self.failing.contains(&self.asked)
    }

    /// Counts a fault.
    pub fn tell<T>(&mut self, outcome: Result<T, Cause>) -> Result<T, Failed>
        ensures tells { Tells self.old self.new outcome result }
        ensures cause { HasCause self.old.faults self.new.faults result }
    {
        match outcome {
            Ok(value) => Ok(value),
            Err(cause) => {
                self.faults = self.faults.saturating_add(1);
                if cause == Cause::Memory {
                    self.starved = self.starved.saturating_add(1);
                }
                Err(Failed)
            }
        }
    }
}
