//! A sink in memory.

ghost use Rattle.std.specs.Prelude.{◌≡◌, ◌≤◌, [], nat_lt, true, is_err, OnErr};
ghost use Rattle.eco_common.specs.Causes.{HasCause, Rose};
ghost use Rattle.eco_text.specs.Writing.{WritesAll};
ghost use Rattle.eco_text.specs.InMemory.{CountsCall, is_due};

use crate::schedule::Schedule;
use crate::sink::Sink;
use eco_common::Failed;
use std::marker::Model;

/// A sink in memory, of which some calls fail. A call that fails takes nothing. A call that finds no memory counts as one that
/// fails.
#[derive(Drop)]
pub struct ByteSink {
    bytes: Vec<u8>,
    schedule: Schedule,
    faults: u64,
}

impl Model for ByteSink {
    ghost use Rattle.eco_text.specs.InMemory.{InMemory};

    ghost Value = { InMemory };

    ghost view = { λ s. record { bytes = s.bytes.items; failing = s.schedule.failing.items; calls = s.schedule.calls; faults = s.faults } };
}

impl ByteSink {
    /// `failing` lists by number, from 1, the calls that fail.
    pub fn new(failing: Vec<u64>) -> ByteSink
        ensures { result ≡ record { bytes = []; failing = failing.items; calls = 0; faults = 0 } }
    {
        ByteSink {
            bytes: Vec::new(*failing.allocator()),
            schedule: Schedule::new(failing),
            faults: 0,
        }
    }

    /// What was taken.
    pub fn bytes(&self) -> &[u8]
        ensures { result.now ≡ self.now.bytes }
    {
        &self.bytes
    }

    /// Whether a call has failed.
    pub fn has_failed(&self) -> bool
        ensures { result ≡ nat_lt 0 self.now.faults }
    {
        0 < self.faults
    }

    fn count_fault(&mut self) -> Failed
        ensures bytes { self.new.bytes ≡ self.old.bytes }
        ensures failing { self.new.failing ≡ self.old.failing }
        ensures calls { self.new.calls ≡ self.old.calls }
        ensures faults { Rose self.old.faults self.new.faults }
        ensures later { self.old.faults ≤ self.new.faults }
    {
        self.faults = self.faults.saturating_add(1);
        Failed
    }
}

impl Sink for ByteSink {
    ghost use Rattle.std.specs.Prelude.{Some};

    ghost taken = { λ s. Some s.bytes };

    ghost faults = { λ s. s.faults };

    fn write_all(&mut self, piece: &[u8]) -> Result<(), Failed>
        ensures bytes { WritesAll (Some self.old.bytes) (Some self.new.bytes) result piece.now }
        ensures nothing { OnErr result (self.new.bytes ≡ self.old.bytes) }
        ensures cause { HasCause self.old.faults self.new.faults result }
        ensures due { is_due self.old ≡ true → is_err result ≡ true }
        ensures counts { CountsCall self.old self.new }
    {
        if self.schedule.next_fails() {
            return Err(self.count_fault());
        }
        match self.bytes.extend_from_slice(piece) {
            Ok(()) => Ok(()),
            Err(_) => Err(self.count_fault()),
        }
    }

    fn finish(&mut self) -> Result<(), Failed>
        ensures bytes { Some self.new.bytes ≡ Some self.old.bytes }
        ensures cause { HasCause self.old.faults self.new.faults result }
        ensures due { is_err result ≡ is_due self.old }
        ensures counts { CountsCall self.old self.new }
    {
        if self.schedule.next_fails() {
            return Err(self.count_fault());
        }
        Ok(())
    }
}
