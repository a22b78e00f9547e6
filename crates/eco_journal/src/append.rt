//! Adding an entry.
ghost use Rattle.std.specs.Prelude.{◌≡◌, ◌+◌, ◌<◌, ◌≤◌, ◌^◌, List, ℕ, length, IfOk, IfErr, IsTrue, IsFalse, IsErrOf, MatchResult};
ghost use Rattle.eco_disk.specs.Disk.{StaysTold};
ghost use Rattle.eco_common.specs.Causes.{Rose};
ghost use Rattle.eco_disk.specs.Calls.{MakesInOrder};
ghost use Rattle.eco_journal.specs.Layout.{behind, IsPayload};
ghost use Rattle.eco_journal.specs.Journal.{disk_of, gate_of, is_broken};
ghost use Rattle.eco_journal.specs.Calls.{append_calls};
ghost use Rattle.eco_journal.specs.Sound.{Sound, Appends};

use crate::faults::AppendFault;
use crate::journal::Journal;
use crate::kept::write_kept;
use crate::layout::{OPEN, SHUT};
use crate::standing::Standing;
use eco_disk::Disk;
use std::alloc::{AllocError, Global};

// The bytes of an entry after its gate, and the closed gate that comes next.
fn behind_gate(alloc: Global, payload: &[u8]) -> Result<Vec<u8>, AllocError>
    requires { IsPayload payload.now }
    ensures { IfOk result (λ bytes. bytes.items ≡ behind payload.now) }
{
    let size = payload.len() as u32;
    let mut bytes = Vec::from_slice(alloc, &size.to_be_bytes())?;
    bytes.extend_from_slice(payload)?;
    bytes.extend_from_slice(&[SHUT])?;
    Ok(bytes)
}

// These bytes, and the place of that gate. A journal of 2^64 bytes has no place for it.
fn made(alloc: Global, gate: u64, payload: &[u8]) -> Result<(Vec<u8>, u64), AppendFault>
    requires { IsPayload payload.now }
    ensures bytes { IfOk result (λ r. r.0.items ≡ behind payload.now) }
    ensures end { IfOk result (λ r. r.1 ≡ gate + length r.0.items) }
    ensures room { IfOk result (λ r. r.1 + 1 < 2 ^ 64) }
    ensures memory { IfErr result (λ e. e ≡ AppendFault.Memory) }
{
    let bytes = behind_gate(alloc, payload)?;
    match gate.checked_add(bytes.len() as u64) {
        Some(end) if end < u64::MAX => Ok((bytes, end)),
        _ => Err(AppendFault::Memory),
    }
}

impl<D: Disk> Journal<D> {
    /// Adds an entry of 1 to 16,777,216 bytes. From Ok on it is there after each crash.
    ///
    /// A fault of the disk stands until a mend: until then the entry may be there or not. Without memory nothing was
    /// done; that is also the answer where the journal has no place left below 2^64.
    pub fn append(&mut self, alloc: Global, payload: &[u8]) -> Result<(), AppendFault>
        requires size { IsPayload payload.now }
        requires whole { IsFalse (is_broken self.old) }

        // On an honest disk, by a journal that is sound.
        ensures crash { (digest : List ℕ) (payloads : List (List ℕ)) (last : List ℕ)
            → Sound digest payloads last self.old
            → Appends digest payloads payload.now self.old self.new result }

        // On any disk.
        ensures memory { IsErrOf result AppendFault.Memory → self.new ≡ self.old }
        ensures broken { MatchResult result (λ _. IsFalse (is_broken self.new))
            (λ e. e ≡ AppendFault.Disk → IsTrue (is_broken self.new)) }
        ensures calls { MakesInOrder (D.calls (disk_of self.old)) (D.calls (disk_of self.new))
            (append_calls (gate_of self.old) payload.now) result }
        ensures told { StaysTold (D.contents (disk_of self.old)) (D.contents (disk_of self.new)) }
        ensures count { D.faults (disk_of self.old) ≤ D.faults (disk_of self.new) }
        ensures cause { IsErrOf result AppendFault.Disk
            → Rose (D.faults (disk_of self.old)) (D.faults (disk_of self.new)) }
    {
        let (unfinished, end) = made(alloc, self.gate, payload)?;
        self.standing = Standing::Behind;
        write_kept(&mut self.disk, self.gate + 1, &unfinished)?;
        self.standing = Standing::AtGate;
        write_kept(&mut self.disk, self.gate, &[OPEN])?;
        self.gate = end;
        self.standing = Standing::Settled;
        Ok(())
    }
}
