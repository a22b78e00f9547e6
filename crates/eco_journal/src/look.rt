//! Looking at a journal's disk.
ghost use Rattle.std.specs.Prelude.{◌≡◌, ◌+◌, ◌<◌, ◌≤◌, ◌^◌, [], ◌++◌, List, ℕ, Some, length, IfOk, IfErr, IsTrue, IsFalse};
ghost use Rattle.eco_disk.specs.Disk.{StaysTold, OnTold, Holds};
ghost use Rattle.eco_common.specs.Causes.{Rose};
ghost use Rattle.eco_journal.specs.Layout.{IsWholeJournal, HasBase, bad_record, entries, is_fresh};
ghost use Rattle.eco_journal.specs.Steps.{BadAt};
ghost use Rattle.eco_disk.specs.Calls.{Makes, MakesInOrder, changes_of};
ghost use Rattle.eco_journal.specs.Calls.{clear_calls, header_calls, found_calls, fresh_calls, end_calls};
ghost use Rattle.eco_journal.specs.Reading.{Looks, standing_at};
ghost use Rattle.eco_journal.specs.declared.header.Beginning.TheVariants.{Fresh};
ghost use Rattle.eco_journal.specs.declared.standing.Standing.TheVariants.{Settled, AtGate};
ghost use Rattle.eco_journal.specs.Start.{IsBeginning, DiffersAt, AreEntries, Finds, IsDiskOrMemory, IsRefusal};

use crate::faults::JournalFault;
use crate::found::Found;
use crate::header::{Beginning, check_head, clear, header, how_it_begins, lay};
use crate::layout::{FIRST_GATE, SHUT};
use crate::reading::read_entries;
use crate::standing::Standing;
use eco_disk::Disk;
use std::alloc::Global;

// Gives a disk a header.
fn make<D: Disk>(
    alloc: Global,
    disk: &mut D,
    digest: &[u8; 32],
    shut: bool,
) -> Result<Found, JournalFault>
    requires { IsTrue shut → OnTold (D.contents disk.old) (λ bytes. 1 ≤ length bytes) }
    ensures crash { (bytes : List ℕ) → IsWholeJournal digest.now bytes → IsBeginning bytes (Fresh shut)
        → Holds D.contents D.moment D.image disk.old (λ c. c ≡ bytes)
        → Finds digest.now bytes [] (D.contents disk.new) (D.moment disk.old) (D.moment disk.new)
        (D.image disk.old) (D.image disk.new) result }
    ensures room { IfOk result (λ f. f.gate + 1 < 2 ^ 64) }
    ensures lies { IfOk result
        (λ f. OnTold (D.contents disk.new) (λ bytes. f.gate + 1 ≤ length bytes)) }
    ensures settled { IfOk result (λ f. f.standing ≡ Settled) }
    ensures none { IfOk result (λ f. f.entries.items ≡ []) }
    ensures calls { MakesInOrder (D.calls disk.old) (D.calls disk.new)
        (clear_calls shut ++ header_calls digest.now) result }
    ensures told { StaysTold (D.contents disk.old) (D.contents disk.new) }
    ensures no_refusal { IfErr result IsDiskOrMemory }
    ensures count { D.faults disk.old ≤ D.faults disk.new }
    ensures cause { IfErr result
        (λ e. e ≡ JournalFault.Disk → Rose (D.faults disk.old) (D.faults disk.new)) }
{
    let header = header(alloc, digest)?;
    clear(disk, shut)?;
    lay(disk, &header)?;
    Ok(Found {
        gate: FIRST_GATE,
        standing: Standing::Settled,
        follows: false,
        entries: Vec::new(alloc),
    })
}

fn standing_of(gate: u8, follows: bool) -> Standing
    ensures { result ≡ standing_at gate follows }
{
    if gate != SHUT {
        Standing::AtGate
    } else if follows {
        Standing::Behind
    } else {
        Standing::Settled
    }
}

// Reads the entries of a disk that has a header.
fn headed<D: Disk>(
    alloc: Global,
    disk: &mut D,
    len: u64,
    digest: &[u8; 32],
) -> Result<Found, JournalFault>
    requires { OnTold (D.contents disk.old) (λ bytes. len ≡ length bytes) }
    ensures crash { (bytes : List ℕ) (payloads : List (List ℕ)) → IsWholeJournal digest.now bytes
        → IsFalse (is_fresh bytes) → entries bytes ≡ Some payloads
        → Holds D.contents D.moment D.image disk.old (λ c. c ≡ bytes)
        → Finds digest.now bytes payloads (D.contents disk.new) (D.moment disk.old)
        (D.moment disk.new) (D.image disk.old) (D.image disk.new) result }
    ensures room { IfOk result (λ f. f.gate < len) }
    ensures ends { IfOk result (λ f. IsFalse f.follows → len ≤ f.gate + 1) }
    ensures found { IfOk result
        (λ f. OnTold (D.contents disk.old)
        (λ bytes. IsFalse (is_fresh bytes) → AreEntries digest.now bytes f.entries.items)) }
    ensures bad { IfErr result
        (λ e. OnTold (D.contents disk.old)
        (λ bytes. IsFalse (is_fresh bytes)
        → BadAt (λ place. (bad_record bytes ≡ Some place) × HasBase digest.now bytes) e)) }
    ensures differs { IfErr result
        (λ e. OnTold (D.contents disk.old) (λ bytes. DiffersAt bytes digest.now e)) }
    ensures ended { IfOk result
        (λ f. OnTold (D.contents disk.old)
        (λ bytes. IsFalse (is_fresh bytes) → found_calls f ≡ end_calls bytes)) }
    ensures reads { Looks D.contents D.moment D.image D.calls disk.old disk.new }
    ensures count { D.faults disk.old ≤ D.faults disk.new }
    ensures cause { IfErr result
        (λ e. e ≡ JournalFault.Disk → Rose (D.faults disk.old) (D.faults disk.new)) }
{
    check_head(disk, len, digest)?;
    let found = read_entries(alloc, disk, len)?;
    let follows = found.at + 1 < len;
    Ok(Found {
        gate: found.at,
        standing: standing_of(found.gate, follows),
        follows,
        entries: found.entries,
    })
}

// What stands on a disk that was synced.
pub fn look<D: Disk>(alloc: Global, disk: &mut D, digest: &[u8; 32]) -> Result<Found, JournalFault>
    ensures crash { (bytes : List ℕ) (payloads : List (List ℕ)) → IsWholeJournal digest.now bytes
        → entries bytes ≡ Some payloads
        → Holds D.contents D.moment D.image disk.old (λ c. c ≡ bytes)
        → Finds digest.now bytes payloads (D.contents disk.new) (D.moment disk.old)
        (D.moment disk.new) (D.image disk.old) (D.image disk.new) result }
    ensures room { IfOk result (λ f. f.gate + 1 < 2 ^ 64) }
    ensures lies { IfOk result
        (λ f. OnTold (D.contents disk.new) (λ bytes. f.gate + 1 ≤ length bytes)) }
    ensures ends { IfOk result
        (λ f. f.standing ≡ AtGate → IsFalse f.follows
        → OnTold (D.contents disk.new) (λ bytes. length bytes ≤ f.gate + 1)) }
    ensures found { IfOk result
        (λ f. OnTold (D.contents disk.old) (λ bytes. AreEntries digest.now bytes f.entries.items)) }
    ensures bad { IfErr result
        (λ e. OnTold (D.contents disk.old)
        (λ bytes. BadAt (λ place. (bad_record bytes ≡ Some place) × HasBase digest.now bytes) e)) }
    ensures differs { IfErr result
        (λ e. OnTold (D.contents disk.old) (λ bytes. DiffersAt bytes digest.now e)) }
    ensures untouched { IfErr result
        (λ e. IsRefusal e → D.contents disk.new ≡ D.contents disk.old) }
    ensures ended { IfOk result
        (λ f. OnTold (D.contents disk.old) (λ bytes. found_calls f ≡ end_calls bytes)) }
    ensures calls { OnTold (D.contents disk.old)
        (λ bytes. MakesInOrder (changes_of (D.calls disk.old)) (changes_of (D.calls disk.new))
        (fresh_calls digest.now bytes) result) }
    ensures refused { IfErr result
        (λ e. IsRefusal e → Makes (changes_of (D.calls disk.old)) (changes_of (D.calls disk.new)) []) }
    ensures told { StaysTold (D.contents disk.old) (D.contents disk.new) }
    ensures count { D.faults disk.old ≤ D.faults disk.new }
    ensures cause { IfErr result
        (λ e. e ≡ JournalFault.Disk → Rose (D.faults disk.old) (D.faults disk.new)) }
{
    let len = disk.len()?;
    match how_it_begins(disk, len)? {
        Beginning::Fresh { shut } => make(alloc, disk, digest, shut),
        Beginning::Headed => headed(alloc, disk, len, digest),
    }
}
