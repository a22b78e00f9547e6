//! Why a text is no desk file.

ghost use Rattle.std.specs.Prelude.{◌≡◌};
ghost use Rattle.eco_desk_file.specs.DeskText.{BlamesField};
ghost use Rattle.eco_desk_file.specs.declared.fault.DeskFault.TheVariants.{Memory as OutOfMemory};

use eco_common::{Memory, Name};
use std::alloc::{AllocFailed, Global};
use thiserror::Error;

/// Why `read_desk` refuses a text.
#[derive(Debug, Drop, Error)]
pub enum DeskFault {
    /// The first field at fault, in the order `tie_high`, `tie_low`, `spares`, any other; or `file` where the text is no
    /// TOML document.
    #[error("Desk field={field}")]
    BadField { field: Name },
    /// Out of memory.
    #[error("memory")]
    Memory,
}

impl From<Memory> for DeskFault {
    ghost from_gives = { λ _ e. e ≡ OutOfMemory };

    fn from(_: Memory) -> DeskFault {
        DeskFault::Memory
    }
}

impl<T: Drop> From<AllocFailed<T>> for DeskFault {
    ghost from_gives = { λ _ e. e ≡ OutOfMemory };

    fn from(_: AllocFailed<T>) -> DeskFault {
        DeskFault::Memory
    }
}

/// The fault of a field.
pub(crate) fn bad_field(alloc: Global, field: &[u8]) -> DeskFault
    ensures { BlamesField field.now result }
{
    match Name::of(alloc, field) {
        Ok(field) => DeskFault::BadField { field },
        Err(_) => DeskFault::Memory,
    }
}
