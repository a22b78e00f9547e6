//! What the last sync of a disk in memory kept, once a change has made it differ from what a read gives.
ghost use Rattle.std.specs.Prelude.{◌≡◌, ◌≤◌, length, Some, None, IfOk, OnOk, OnErr};
ghost use Rattle.eco_disk.specs.Synced.{kept_in, Agrees, IsParted};

use crate::buffer::follow;
use std::alloc::AllocError;

#[derive(Drop)]
pub struct Synced {
    /// What the last sync that succeeded kept.
    pub bytes: Vec<u8>,
    /// These and what a read gives are the same below this place.
    pub agree: usize,
}

// What was kept by a disk with these bytes, before it changes from a place on.
fn parted(synced: Option<Synced>, now: &Vec<u8>, at: usize) -> Result<Synced, AllocError>
    requires within { at ≤ length now.now.items }
    requires agrees { Agrees now.now.items synced }
    ensures kept { IfOk result (λ s. s.bytes.items ≡ kept_in now.now.items synced) }
    ensures agrees { IfOk result (λ s. Agrees now.now.items (Some s)) }
    ensures below { IfOk result (λ s. s.agree ≤ at) }
    ensures none { OnErr result (synced ≡ None) }
{
    match synced {
        Some(synced) => Ok(lowered(synced, at)),
        None => Ok(Synced {
            bytes: now.to_vec(*now.allocator())?,
            agree: at,
        }),
    }
}

fn lowered(synced: Synced, at: usize) -> Synced
    ensures kept { result.bytes ≡ synced.bytes }
    ensures below { result.agree ≤ at }
    ensures lower { result.agree ≤ synced.agree }
{
    if synced.agree <= at {
        return synced;
    }
    Synced {
        agree: at,
        ..synced
    }
}

/// Keeps apart what was synced, before a disk changes from a place on.
pub fn part(synced: &mut Option<Synced>, now: &Vec<u8>, at: usize) -> Result<(), AllocError>
    requires within { at ≤ length now.now.items }
    requires agrees { Agrees now.now.items synced.old }
    ensures kept { kept_in now.now.items synced.new ≡ kept_in now.now.items synced.old }
    ensures agrees { Agrees now.now.items synced.new }
    ensures parted { OnOk result (IsParted at synced.new) }
{
    *synced = Some(parted(synced.take(), now, at)?);
    Ok(())
}

// These bytes are kept now.
fn followed(mut synced: Synced, now: &[u8]) -> (Synced, Result<(), AllocError>)
    requires { Agrees now.now (Some synced) }
    ensures agrees { Agrees now.now (Some result.0) }
    ensures ok { OnOk result.1 (result.0.bytes.items ≡ now.now) }
    ensures err { OnErr result.1 (result.0.bytes.items ≡ synced.bytes.items) }
{
    match follow(&mut synced.bytes, synced.agree, now) {
        Ok(()) => {
            synced.agree = now.len();
            (synced, Ok(()))
        }
        Err(error) => (synced, Err(error)),
    }
}

/// Keeps these bytes.
pub fn keep(synced: &mut Option<Synced>, now: &[u8]) -> Result<(), AllocError>
    requires { Agrees now.now synced.old }
    ensures agrees { Agrees now.now synced.new }
    ensures ok { OnOk result (kept_in now.now synced.new ≡ now.now) }
    ensures err { OnErr result (kept_in now.now synced.new ≡ kept_in now.now synced.old) }
{
    match synced.take() {
        Some(held) => {
            let (held, done) = followed(held, now);
            *synced = Some(held);
            done
        }
        None => Ok(()),
    }
}
