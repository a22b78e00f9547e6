//! Starting a journal.
ghost use Rattle.std.specs.Prelude.{◌≡◌, ◌≢◌, ◌+◌, ◌<◌, ◌≤◌, ◌^◌, [], ◌∷◌, List, ℕ, Some, length, IfOk, IfErr, IsFalse};
ghost use Rattle.eco_disk.specs.Disk.{StaysTold, OnTold, Holds};
ghost use Rattle.eco_common.specs.Causes.{Rose};
ghost use Rattle.eco_disk.specs.Calls.{Makes, MakesInOrder, changes_of};
ghost use Rattle.eco_disk.specs.declared.call.Call.TheVariants.{Sync};
ghost use Rattle.eco_journal.specs.Calls.{found_calls, fresh_calls, end_calls, start_calls};
ghost use Rattle.eco_journal.specs.Layout.{IsWholeJournal, HasBase, bad_record, entries};
ghost use Rattle.eco_journal.specs.Steps.{BadAt};
ghost use Rattle.eco_journal.specs.Sound.{IsSound, Settles};
ghost use Rattle.eco_journal.specs.declared.standing.Standing.TheVariants.{Settled, AtGate};
ghost use Rattle.eco_journal.specs.Journal.{disk_after, is_broken};
ghost use Rattle.eco_journal.specs.Start.{Starts, DiffersAt, AreEntries, Refuses, IsRefusal, IsDiskOrMemory, StartKeeps, FindsSound};

use crate::entry::Entry;
use crate::faults::JournalFault;
use crate::found::Found;
use crate::journal::Journal;
use crate::look::look;
use eco_disk::Disk;
use std::alloc::Global;

// Keeps the disk as it is, and then looks at it.
fn open<D: Disk>(alloc: Global, disk: &mut D, digest: &[u8; 32]) -> Result<Found, JournalFault>
    ensures crash { (bytes : List ℕ) (payloads : List (List ℕ)) → D.contents disk.old ≡ Some bytes
        → entries bytes ≡ Some payloads
        → Holds D.contents D.moment D.image disk.old (IsWholeJournal digest.now)
        → StartKeeps (IfErr result (λ e. e ≢ JournalFault.Disk)) digest.now bytes payloads
        (D.moment disk.old) (D.moment disk.new) (D.image disk.old) (D.image disk.new)
        × IfOk result
        (λ f. FindsSound digest.now bytes payloads (D.contents disk.new)
        (D.image disk.new (D.moment disk.new)) f)
        × IfErr result IsDiskOrMemory }
    ensures room { IfOk result (λ f. f.gate + 1 < 2 ^ 64) }
    ensures lies { IfOk result
        (λ f. OnTold (D.contents disk.new) (λ bytes. f.gate + 1 ≤ length bytes)) }
    ensures ends { IfOk result
        (λ f. f.standing ≡ AtGate → IsFalse f.follows
        → OnTold (D.contents disk.new) (λ bytes. length bytes ≤ f.gate + 1)) }
    ensures found { IfOk result
        (λ f. OnTold (D.contents disk.old) (λ bytes. AreEntries digest.now bytes f.entries.items)) }
    ensures bad { IfErr result
        (λ e. OnTold (D.contents disk.old)
        (λ bytes. BadAt (λ place. (bad_record bytes ≡ Some place) × HasBase digest.now bytes) e)) }
    ensures differs { IfErr result
        (λ e. OnTold (D.contents disk.old) (λ bytes. DiffersAt bytes digest.now e)) }
    ensures untouched { IfErr result
        (λ e. IsRefusal e → D.contents disk.new ≡ D.contents disk.old) }
    ensures ended { IfOk result
        (λ f. OnTold (D.contents disk.old) (λ bytes. found_calls f ≡ end_calls bytes)) }
    ensures calls { OnTold (D.contents disk.old)
        (λ bytes. MakesInOrder (changes_of (D.calls disk.old)) (changes_of (D.calls disk.new))
        (Sync ∷ fresh_calls digest.now bytes) result) }
    ensures refused { IfErr result
        (λ e. IsRefusal e
        → Makes (changes_of (D.calls disk.old)) (changes_of (D.calls disk.new)) (Sync ∷ [])) }
    ensures told { StaysTold (D.contents disk.old) (D.contents disk.new) }
    ensures count { D.faults disk.old ≤ D.faults disk.new }
    ensures cause { IfErr result
        (λ e. e ≡ JournalFault.Disk → Rose (D.faults disk.old) (D.faults disk.new)) }
{
    disk.sync()?;
    look(alloc, disk, digest)
}

// Takes away what stands after the gate.
fn tidied<D: Disk>(disk: D, found: Found) -> Result<(Journal<D>, Vec<Entry>), (D, JournalFault)>
    requires room { found.gate + 1 < 2 ^ 64 }
    requires lies { OnTold (D.contents disk) (λ bytes. found.gate + 1 ≤ length bytes) }
    requires ends { found.standing ≡ AtGate → IsFalse found.follows
        → OnTold (D.contents disk) (λ bytes. length bytes ≤ found.gate + 1) }
    ensures crash { (digest : List ℕ) (payloads : List (List ℕ)) (last : List ℕ)
        → IsSound digest payloads last (D.contents disk)
        (D.image disk (D.moment disk)) found.gate found.standing
        → Settles found.standing digest payloads last disk result }
    ensures settled { IfOk result (λ r. r.0.standing ≡ Settled) }
    ensures entries { IfOk result (λ r. r.1 ≡ found.entries) }
    ensures fault { IfErr result
        (λ e. (e.1 ≡ JournalFault.Disk) × Rose (D.faults disk) (D.faults e.0)) }
    ensures count { D.faults disk ≤ D.faults (disk_after result) }
    ensures calls { MakesInOrder (D.calls disk) (D.calls (disk_after result))
        (found_calls found) result }
    ensures told { StaysTold (D.contents disk) (D.contents (disk_after result)) }
{
    let mut journal = Journal {
        disk,
        gate: found.gate,
        standing: found.standing,
    };
    match journal.settle(found.follows) {
        Ok(()) => Ok((journal, found.entries)),
        Err(_) => Err((journal.end(), JournalFault::Disk)),
    }
}

impl<D: Disk> Journal<D> {
    /// Opens the journal of a base by the SHA-256 digest of it, or makes one on a disk without a header. What a crash
    /// left unfinished after the entries is taken away.
    ///
    /// A refusal returns the disk. It comes from the disk or where memory runs out, or else the bytes are a journal of
    /// another base, or no header or no whole entry stands after an open gate; then the disk is left as it was.
    pub fn start(
        alloc: Global,
        mut disk: D,
        digest: [u8; 32],
    ) -> Result<(Journal<D>, Vec<Entry>), (D, JournalFault)>
        // On an honest disk that is whole for this base.
        ensures crash { (bytes : List ℕ) (payloads : List (List ℕ)) → D.contents disk ≡ Some bytes
            → entries bytes ≡ Some payloads
            → Holds D.contents D.moment D.image disk (IsWholeJournal digest)
            → Starts digest bytes payloads disk result }
        ensures honest { Holds D.contents D.moment D.image disk (IsWholeJournal digest)
            → IfErr result (λ e. IsDiskOrMemory e.1) }

        // On any disk.
        ensures whole { IfOk result (λ r. IsFalse (is_broken r.0)) }
        ensures entries { IfOk result
            (λ r. OnTold (D.contents disk) (λ bytes. AreEntries digest bytes r.1.items)) }
        ensures refuses { IfErr result
            (λ e. OnTold (D.contents disk) (λ bytes. Refuses digest bytes e.1)) }
        ensures untouched { IfErr result (λ e. IsRefusal e.1 → D.contents e.0 ≡ D.contents disk) }
        ensures calls { OnTold (D.contents disk)
            (λ bytes. MakesInOrder (changes_of (D.calls disk))
            (changes_of (D.calls (disk_after result))) (start_calls digest bytes) result) }
        ensures refused { IfErr result
            (λ e. IsRefusal e.1
            → Makes (changes_of (D.calls disk)) (changes_of (D.calls e.0)) (Sync ∷ [])) }
        ensures told { StaysTold (D.contents disk) (D.contents (disk_after result)) }
        ensures count { D.faults disk ≤ D.faults (disk_after result) }
        ensures cause { IfErr result
            (λ e. e.1 ≡ JournalFault.Disk → Rose (D.faults disk) (D.faults e.0)) }
    {
        match open(alloc, &mut disk, &digest) {
            Ok(found) => tidied(disk, found),
            Err(fault) => Err((disk, fault)),
        }
    }
}
