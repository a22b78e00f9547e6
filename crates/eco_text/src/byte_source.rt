//! A source in memory.

ghost use Rattle.std.specs.Prelude.{◌≡◌, nat_lt, is_err};
ghost use Rattle.eco_common.specs.Causes.{HasCause};
ghost use Rattle.eco_text.specs.InMemory.{CountsCall, is_due};
ghost use Rattle.eco_text.specs.Streams.{Takes};

use crate::schedule::Schedule;
use crate::source::Source;
use eco_common::Failed;
use std::marker::Model;

/// A source in memory, of which some calls fail. A call that fails takes nothing.
#[derive(Drop)]
pub struct ByteSource {
    bytes: Vec<u8>,
    at: usize,
    schedule: Schedule,
    faults: u64,
}

impl Model for ByteSource {
    ghost use Rattle.std.specs.Prelude.{◌≤◌, drop, vec_len};
    ghost use Rattle.eco_text.specs.InMemory.{InMemory};

    ghost Value = { InMemory };

    ghost view = { λ s. record { bytes = drop s.at s.bytes.items; failing = s.schedule.failing.items; calls = s.schedule.calls; faults = s.faults } };

    ghost invariant = { λ s. s.at ≤ vec_len s.bytes };
}

impl ByteSource {
    /// `failing` lists by number, from 1, the reads that fail.
    pub fn new(bytes: Vec<u8>, failing: Vec<u64>) -> ByteSource
        ensures { result ≡ record { bytes = bytes.items; failing = failing.items; calls = 0; faults = 0 } }
    {
        ByteSource {
            bytes,
            at: 0,
            schedule: Schedule::new(failing),
            faults: 0,
        }
    }

    /// Whether a read has failed.
    pub fn has_failed(&self) -> bool
        ensures { result ≡ nat_lt 0 self.now.faults }
    {
        0 < self.faults
    }
}

impl Source for ByteSource {
    ghost use Rattle.std.specs.Prelude.{Some};

    ghost left = { λ s. Some s.bytes };

    ghost faults = { λ s. s.faults };

    fn read(&mut self, piece: &mut [u8]) -> Result<usize, Failed>
        ensures bytes { Takes (Some self.old.bytes) (Some self.new.bytes) result piece.new }
        ensures cause { HasCause self.old.faults self.new.faults result }
        ensures due { is_err result ≡ is_due self.old }
        ensures counts { CountsCall self.old self.new }
    {
        if self.schedule.next_fails() {
            self.faults = self.faults.saturating_add(1);
            return Err(Failed);
        }
        let count = piece.len().min(self.bytes.len() - self.at);
        piece[..count].copy_from_slice(&self.bytes[self.at..self.at + count]);
        self.at += count;
        Ok(count)
    }
}
