//! Why a call of a journal failed.
ghost use Rattle.std.specs.Prelude.{◌≡◌};
ghost use Rattle.eco_journal.specs.declared.faults.AppendFault.TheVariants.{Memory};

use eco_disk::Failed;
use std::alloc::{AllocError, AllocFailed};
use thiserror::Error;

/// Why an entry wasn't added.
#[derive(Clone, Copy, Debug, PartialEq, Eq, Error)]
pub enum AppendFault {
    /// The disk failed, and the fault stands until a mend.
    #[error("the disk failed")]
    Disk,
    /// Nothing was done.
    #[error("no memory")]
    Memory,
}

impl From<AllocError> for AppendFault {
    ghost from_gives = { λ _ e. e ≡ Memory };

    fn from(_: AllocError) -> Self {
        AppendFault::Memory
    }
}

impl From<Failed> for AppendFault {
    ghost use Rattle.std.specs.Prelude.{◌≡◌};
    ghost use Rattle.eco_journal.specs.declared.faults.AppendFault.TheVariants.{Disk};

    ghost from_gives = { λ _ e. e ≡ Disk };

    fn from(_: Failed) -> Self {
        AppendFault::Disk
    }
}

/// Why a journal wasn't opened.
#[derive(Clone, Copy, Debug, PartialEq, Eq, Error)]
pub enum JournalFault {
    #[error("the disk failed")]
    Disk,
    /// The digest that the journal has, and the one that it was opened with.
    #[error("the journal is of another base")]
    BaseDiffers { kept: [u8; 32], given: [u8; 32] },
    /// At this place stands no header, or an open gate without a whole entry.
    #[error("no record can be read at byte {place}")]
    BadRecord { place: u64 },
    #[error("no memory")]
    Memory,
}

impl From<Failed> for JournalFault {
    ghost use Rattle.std.specs.Prelude.{◌≡◌};
    ghost use Rattle.eco_journal.specs.declared.faults.JournalFault.TheVariants.{Disk};

    ghost from_gives = { λ _ e. e ≡ Disk };

    fn from(_: Failed) -> Self {
        JournalFault::Disk
    }
}

impl From<AllocError> for JournalFault {
    ghost use Rattle.std.specs.Prelude.{◌≡◌};
    ghost use Rattle.eco_journal.specs.declared.faults.JournalFault.TheVariants.{Memory};

    ghost from_gives = { λ _ e. e ≡ Memory };

    fn from(_: AllocError) -> Self {
        JournalFault::Memory
    }
}

impl<T: Drop> From<AllocFailed<T>> for JournalFault {
    ghost use Rattle.std.specs.Prelude.{◌≡◌};
    ghost use Rattle.eco_journal.specs.declared.faults.JournalFault.TheVariants.{Memory};

    ghost from_gives = { λ _ e. e ≡ Memory };

    fn from(_: AllocFailed<T>) -> Self {
        JournalFault::Memory
    }
}
