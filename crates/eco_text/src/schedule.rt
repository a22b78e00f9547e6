//! Which calls of an object in memory fail.

ghost use Rattle.std.specs.Prelude.{◌≡◌, ◌==◌};
ghost use Rattle.std.specs.List.{list_any};

/// Which calls are to fail, by their numbers from 1 on.
#[derive(Drop)]
pub struct Schedule {
    pub failing: Vec<u64>,
    pub calls: u64,
}

fn lists(failing: &[u64], call: u64) -> bool
    ensures { result ≡ list_any (λ n. n == call) failing.now }
{
    failing.iter().any(|number| *number == call)
}

impl Schedule {
    ghost use Rattle.eco_common.specs.Causes.{next_count};

    pub fn new(failing: Vec<u64>) -> Schedule
        ensures failing { result.failing ≡ failing }
        ensures calls { result.calls ≡ 0 }
    {
        Schedule { failing, calls: 0 }
    }

    /// Counts one call, and says whether it is to fail.
    pub fn next_fails(&mut self) -> bool
        ensures failing { self.new.failing ≡ self.old.failing }
        ensures calls { self.new.calls ≡ next_count self.old.calls }
        ensures listed { result ≡ list_any (λ n. n == next_count self.old.calls) self.old.failing.items }
    {
        self.calls = self.calls.saturating_add(1);
        lists(&self.failing, self.calls)
    }
}
