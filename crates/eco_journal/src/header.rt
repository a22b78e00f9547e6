//! The header of a journal.
ghost use Rattle.std.specs.Prelude.{◌≡◌, ◌+◌, ◌<◌, ◌≤◌, [], ◌∷◌, ◌++◌, List, ℕ, length, get_or, take, drop, IfOk, IfErr, OnOk, IsTrue, IsFalse, slice_range, ◌==◌, ◌&&◌};
ghost use Rattle.std.specs.Str.{bytes_eq};
ghost use Rattle.eco_disk.specs.Disk.{StaysTold, OnTold, Holds, LeavesOnly};
ghost use Rattle.eco_common.specs.Causes.{HasCause, Rose};
ghost use Rattle.eco_journal.specs.Layout.{magic, has_header, IsHead, IsWholeJournal, front};
ghost use Rattle.eco_journal.specs.Unfinished.{StoresOnly};
ghost use Rattle.eco_journal.specs.Calls.{clear_calls};
ghost use Rattle.eco_disk.specs.Calls.{MakesInOrder};
ghost use Rattle.eco_disk.specs.declared.call.Call.TheVariants.{Write, Sync};
ghost use Rattle.eco_journal.specs.Steps.{BadAt};
ghost use Rattle.eco_journal.specs.Reading.{Looks};
ghost use Rattle.eco_journal.specs.declared.header.Beginning.TheVariants.{Fresh};
ghost use Rattle.eco_journal.specs.Start.{IsBeginning, DiffersAt, IsUnopened};

use crate::faults::JournalFault;
use crate::kept::write_kept;
use crate::layout::{FIRST_GATE, HEADER_BYTES, HEADER_GATE, MAGIC, OPEN, SHUT};
use crate::reading::byte_at;
use eco_disk::{Disk, Failed};
use std::alloc::{AllocError, Global};

/// How a journal's disk begins.
#[derive(Clone, Copy, Debug, PartialEq, Eq)]
pub enum Beginning {
    /// Without a header. Gate 0 stands closed, or it doesn't.
    Fresh { shut: bool },
    /// With more than that.
    Headed,
}

pub fn how_it_begins<D: Disk>(disk: &mut D, len: u64) -> Result<Beginning, Failed>
    requires { OnTold (D.contents disk.old) (λ bytes. len ≡ length bytes) }
    ensures beginning { IfOk result
        (λ b. OnTold (D.contents disk.old) (λ bytes. IsBeginning bytes b)) }
    ensures reads { Looks D.contents D.moment D.image D.calls disk.old disk.new }
    ensures cause { HasCause (D.faults disk.old) (D.faults disk.new) result }
{
    if len <= 1 {
        return Ok(Beginning::Fresh { shut: false });
    }
    let gate = byte_at(disk, HEADER_GATE)?;
    if len <= FIRST_GATE + 1 && gate != OPEN {
        return Ok(Beginning::Fresh { shut: gate == SHUT });
    }
    Ok(Beginning::Headed)
}

// Tests the header of a journal that has one.
pub fn check_head<D: Disk>(disk: &mut D, len: u64, digest: &[u8; 32]) -> Result<(), JournalFault>
    requires { OnTold (D.contents disk.old) (λ bytes. len ≡ length bytes) }
    ensures long { OnOk result (41 < len) }
    ensures head { OnOk result
        (OnTold (D.contents disk.old)
        (λ bytes. IsTrue (has_header bytes) × (take 32 (drop 9 bytes) ≡ digest.now))) }
    ensures bad { IfErr result
        (λ e. OnTold (D.contents disk.old)
        (λ bytes. BadAt (λ place. (place ≡ 0) × IsFalse (has_header bytes)) e)) }
    ensures differs { IfErr result
        (λ e. OnTold (D.contents disk.old) (λ bytes. DiffersAt bytes digest.now e)) }
    ensures reads { Looks D.contents D.moment D.image D.calls disk.old disk.new }
    ensures count { D.faults disk.old ≤ D.faults disk.new }
    ensures cause { IfErr result
        (λ e. e ≡ JournalFault.Disk → Rose (D.faults disk.old) (D.faults disk.new)) }
{
    if len <= FIRST_GATE {
        return Err(JournalFault::BadRecord { place: HEADER_GATE });
    }
    let mut head = [0u8; HEADER_BYTES];
    disk.read(HEADER_GATE, &mut head)?;
    if !is_headed(&head) {
        return Err(JournalFault::BadRecord { place: HEADER_GATE });
    }
    let kept = kept_digest(&head);
    if !is_same(&kept, digest) {
        return Err(JournalFault::BaseDiffers {
            kept,
            given: *digest,
        });
    }
    Ok(())
}

// Whether the gate is open and the magic is right.
fn is_headed(head: &[u8]) -> bool
    requires { length head.now ≡ 41 }
    ensures { result ≡ ((get_or head.now 0 0 == 1) && bytes_eq (slice_range head.now 1 9) magic) }
{
    head[0] == OPEN && &head[1..9] == MAGIC.as_slice()
}

fn kept_digest(head: &[u8]) -> [u8; 32]
    requires { length head.now ≡ 41 }
    ensures { result ≡ slice_range head.now 9 41 }
{
    let mut kept = [0u8; 32];
    kept.copy_from_slice(&head[9..41]);
    kept
}

fn is_same(a: &[u8; 32], b: &[u8; 32]) -> bool
    ensures { result ≡ bytes_eq a.now b.now }
{
    a.as_slice() == b.as_slice()
}

// A header after its gate.
pub fn header(alloc: Global, digest: &[u8; 32]) -> Result<Vec<u8>, AllocError>
    ensures { IfOk result (λ header. header.items ≡ magic ++ digest.now ++ 0 ∷ []) }
{
    let mut header = Vec::from_slice(alloc, &MAGIC)?;
    header.extend_from_slice(digest)?;
    header.extend_from_slice(&[SHUT])?;
    Ok(header)
}

// Closes gate 0, where it doesn't stand closed.
pub fn clear<D: Disk>(disk: &mut D, shut: bool) -> Result<(), Failed>
    requires { IsTrue shut → OnTold (D.contents disk.old) (λ bytes. 1 ≤ length bytes) }
    ensures long { OnOk result (OnTold (D.contents disk.new) (λ bytes. 1 ≤ length bytes)) }
    ensures crash { (digest bytes : List ℕ) → IsWholeJournal digest bytes → IsBeginning bytes (Fresh shut)
        → Holds D.contents D.moment D.image disk.old (λ c. c ≡ bytes)
        → LeavesOnly D.moment D.image disk.old disk.new (StoresOnly digest [])
        × OnOk result (Holds D.contents D.moment D.image disk.new IsUnopened) }
    ensures calls { MakesInOrder (D.calls disk.old) (D.calls disk.new) (clear_calls shut) result }
    ensures told { StaysTold (D.contents disk.old) (D.contents disk.new) }
    ensures cause { HasCause (D.faults disk.old) (D.faults disk.new) result }
{
    if shut {
        return Ok(());
    }
    write_kept(disk, HEADER_GATE, &[SHUT])
}

// Writes a header after the closed gate 0, and opens the gate.
pub fn lay<D: Disk>(disk: &mut D, header: &[u8]) -> Result<(), Failed>
    requires room { OnTold (D.contents disk.old) (λ bytes. 1 ≤ length bytes) }
    requires size { length header.now ≡ 41 }
    ensures crash { (digest head : List ℕ) → IsHead digest head → header.now ≡ head ++ 0 ∷ []
        → Holds D.contents D.moment D.image disk.old IsUnopened
        → LeavesOnly D.moment D.image disk.old disk.new (StoresOnly digest [])
        × OnOk result
        (Holds D.contents D.moment D.image disk.new (λ c. c ≡ front head [] ++ 0 ∷ [])) }
    ensures long { OnOk result (OnTold (D.contents disk.new) (λ bytes. 42 ≤ length bytes)) }
    ensures calls { MakesInOrder (D.calls disk.old) (D.calls disk.new)
        (Write 1 header.now ∷ Sync ∷ Write 0 (1 ∷ []) ∷ Sync ∷ []) result }
    ensures told { StaysTold (D.contents disk.old) (D.contents disk.new) }
    ensures cause { HasCause (D.faults disk.old) (D.faults disk.new) result }
{
    write_kept(disk, HEADER_GATE + 1, header)?;
    write_kept(disk, HEADER_GATE, &[OPEN])
}
