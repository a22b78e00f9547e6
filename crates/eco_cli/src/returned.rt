//! Objects that were taken back, and room for those that are open.

ghost use Rattle.std.specs.Prelude.{◌≡◌, ◌+◌, ◌<◌, ◌≤◌, [], ◌∷◌, ◌++◌, vec_len, vec_capacity, OnOk, OnErr};

use eco_text::{ByteSink, ByteSource};
use std::alloc::AllocError;

#[derive(Drop)]
pub struct ReturnedSources {
    pub sources: Vec<ByteSource>,
    pub awaited: usize,
    ghost room: { vec_len sources + awaited ≤ vec_capacity sources },
}

impl ReturnedSources {
    /// Room for one source more.
    pub fn take_room(&mut self) -> Result<(), AllocError>
        ensures sources { self.new.sources.items ≡ self.old.sources.items }
        ensures open { OnOk result (self.new.awaited ≡ self.old.awaited + 1) }
        ensures same { OnErr result (self.new.awaited ≡ self.old.awaited) }
    {
        self.sources.reserve(self.awaited + 1)?;
        self.awaited += 1;
        Ok(())
    }

    pub fn add(&mut self, source: ByteSource)
        requires { 0 < self.old.awaited }
        ensures sources { self.new.sources.items ≡ self.old.sources.items ++ source ∷ [] }
        ensures open { self.new.awaited + 1 ≡ self.old.awaited }
    {
        self.awaited -= 1;
        let _ = self.sources.push(source);
    }
}

#[derive(Drop)]
pub struct ReturnedSinks {
    pub sinks: Vec<ByteSink>,
    pub awaited: usize,
    ghost room: { vec_len sinks + awaited ≤ vec_capacity sinks },
}

impl ReturnedSinks {
    /// Room for one sink more.
    pub fn take_room(&mut self) -> Result<(), AllocError>
        ensures sinks { self.new.sinks.items ≡ self.old.sinks.items }
        ensures open { OnOk result (self.new.awaited ≡ self.old.awaited + 1) }
        ensures same { OnErr result (self.new.awaited ≡ self.old.awaited) }
    {
        self.sinks.reserve(self.awaited + 1)?;
        self.awaited += 1;
        Ok(())
    }

    pub fn add(&mut self, sink: ByteSink)
        requires { 0 < self.old.awaited }
        ensures sinks { self.new.sinks.items ≡ self.old.sinks.items ++ sink ∷ [] }
        ensures open { self.new.awaited + 1 ≡ self.old.awaited }
    {
        self.awaited -= 1;
        let _ = self.sinks.push(sink);
    }
}
