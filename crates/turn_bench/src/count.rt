//! What is counted under either lock.
ghost use Rattle.std.specs.Prelude.{◌≡◌, ◌+◌, ◌%◌, ◌^◌, []};

use eco_turn::Kept;

/// How often a lock was taken, and a number that each who has it works on. It stands for a list that stays empty, so that
/// nothing is timed but the lock and that work.
#[derive(Drop)]
pub struct Count {
    pub passed: u64,
    worked: u64,
}

impl Kept for Count {
    type Entry = ();

    type Fixed = ();

    ghost entries = { λ _. [] };

    ghost fixed = { λ _. tt };

    fn length(&self) -> u64 {
        0
    }
}

impl Count {
    pub fn new() -> Count
        ensures { result.passed ≡ 0 }
    {
        Count {
            passed: 0,
            worked: 1,
        }
    }

    /// Counts one more, and works for so many rounds.
    pub fn add(&mut self, rounds: u32)
        ensures { self.new.passed ≡ (self.old.passed + 1) % 2 ^ 64 }
    {
        self.passed = self.passed.wrapping_add(1);
        self.worked = work(self.worked, rounds);
    }
}

/// So many steps of a linear congruence, from the number where the last one stood.
fn work(from: u64, rounds: u32) -> u64 {
    let mut at = from;
    for _ in 0..rounds {
        at = at
            .wrapping_mul(6_364_136_223_846_793_005)
            .wrapping_add(1_442_695_040_888_963_407);
    }
    at
}
