//! A journal on its disk.
ghost use Rattle.std.specs.Prelude.{◌≡◌, ◌+◌, ◌<◌, ◌≤◌, ◌^◌, List, ℕ, Some, length};

use crate::standing::Standing;
use eco_disk::Disk;

/// A list of entries on a disk.
///
/// An entry that `append` answered Ok for is there after every crash. After a fault of the disk it may be there or not,
/// until a mend takes it away.
#[derive(Drop)]
pub struct Journal<D: Disk> {
    pub(crate) disk: D,
    /// The place of the gate after the last entry.
    pub(crate) gate: u64,
    pub(crate) standing: Standing,

    ghost room: { gate + 1 < 2 ^ 64 },
    ghost lies: { (bytes : List ℕ) → D.contents disk ≡ Some bytes → gate + 1 ≤ length bytes },
}

impl<D: Disk> Journal<D> {
    ghost use Rattle.std.specs.Prelude.{◌≡◌, List, ℕ};
    ghost use Rattle.eco_disk.specs.Disk.{Holds};
    ghost use Rattle.eco_journal.specs.Journal.{disk_of, is_broken};
    ghost use Rattle.eco_journal.specs.Layout.{IsWholeJournal};
    ghost use Rattle.eco_journal.specs.Sound.{Sound};

    /// Whether a fault of an append stands that wasn't mended.
    pub fn broken(&self) -> bool
        ensures { result ≡ is_broken self.now }
    {
        self.standing != Standing::Settled
    }

    /// Gives the disk back. That of a sound journal is whole, whatever fault stands.
    pub fn end(self) -> D
        ensures disk { result ≡ disk_of self }
        ensures whole { (digest : List ℕ) (payloads : List (List ℕ)) (last : List ℕ)
            → Sound digest payloads last self
            → Holds D.contents D.moment D.image result (IsWholeJournal digest) }
    {
        self.disk
    }
}
