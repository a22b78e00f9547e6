//! What a disk in memory holds: now, at its last sync, and at first.
ghost use Rattle.std.specs.Prelude.{◌≡◌, ◌≤◌, length, take, OnOk, OnErr};
ghost use Rattle.eco_disk.specs.Disk.{written};
ghost use Rattle.std.proofs.Props.{props};
ghost use Rattle.eco_disk.specs.Synced.{Agrees};

use crate::buffer::overwrite;
use crate::synced::{Synced, keep, part};
use std::alloc::AllocError;
use std::snapshot::Snapshot;

#[derive(Drop)]
pub struct Contents {
    /// What a read gives.
    pub bytes: Vec<u8>,
    /// What the last sync kept; None before the first change.
    pub synced: Option<Synced>,
    /// What a read gave at first. It takes no memory: the proofs alone look at it.
    pub first: Snapshot<Vec<u8>>,

    ghost agrees: { Agrees bytes.items synced } by { Prim.hlevel props },
}

impl Contents {
    ghost use Rattle.eco_disk.specs.Contents.{first_of, kept_of, SamePast};

    pub fn of(bytes: Vec<u8>) -> Self
        ensures bytes { result.bytes ≡ bytes }
        ensures first { first_of result ≡ bytes.items }
        ensures kept { kept_of result ≡ bytes.items }
    {
        let first = Snapshot::of(&bytes);
        Contents {
            bytes,
            synced: None,
            first,
        }
    }

    /// What the last sync that succeeded kept.
    pub fn kept(&self) -> &[u8]
        ensures { result.now ≡ kept_of self.now }
    {
        match &self.synced {
            Some(synced) => &synced.bytes,
            None => &self.bytes,
        }
    }

    pub fn write(&mut self, at: usize, piece: &[u8]) -> Result<(), AllocError>
        requires { at ≤ length self.old.bytes.items }
        ensures past { SamePast self.old self.new }
        ensures ok { OnOk result
            (self.new.bytes.items ≡ written at piece.now self.old.bytes.items) }
        ensures err { OnErr result (self.new.bytes.items ≡ self.old.bytes.items) }
    {
        part(&mut self.synced, &self.bytes, at)?;
        overwrite(&mut self.bytes, at, piece)
    }

    pub fn cut(&mut self, len: usize) -> Result<(), AllocError>
        requires { len ≤ length self.old.bytes.items }
        ensures past { SamePast self.old self.new }
        ensures ok { OnOk result (self.new.bytes.items ≡ take len self.old.bytes.items) }
        ensures err { OnErr result (self.new.bytes.items ≡ self.old.bytes.items) }
    {
        part(&mut self.synced, &self.bytes, len)?;
        self.bytes.truncate(len);
        Ok(())
    }

    /// Keeps what a read gives.
    pub fn sync(&mut self) -> Result<(), AllocError>
        ensures bytes { self.new.bytes.items ≡ self.old.bytes.items }
        ensures first { first_of self.new ≡ first_of self.old }
        ensures ok { OnOk result (kept_of self.new ≡ self.old.bytes.items) }
        ensures err { OnErr result (kept_of self.new ≡ kept_of self.old) }
    {
        keep(&mut self.synced, &self.bytes)
    }
}
