//! Why masters don't fit a design.

ghost use Rattle.std.specs.Prelude.{◌≡◌};
ghost use Rattle.eco_master_faults.specs.declared.fault.MasterFault.TheVariants.{Memory as OutOfMemory};

use eco_common::{Memory, Name};
use thiserror::Error;

/// Why a library and a functions file don't fit a design: the first fault, components before masters.
#[derive(Debug, Drop, Error)]
pub enum MasterFault {
    /// A component's model isn't in the library.
    #[error("UnknownMaster comp={comp}")]
    UnknownMaster { comp: Name },
    /// A used master hasn't the pins that the functions file lists. The first such pin by bytes is `pin`.
    #[error("FunctionPins master={master} pin={pin}")]
    FunctionPins { master: Name, pin: Name },
    /// Want of memory.
    #[error("memory")]
    Memory,
}

impl From<Memory> for MasterFault {
    ghost from_gives = { λ _ e. e ≡ OutOfMemory };

    fn from(_: Memory) -> MasterFault {
        MasterFault::Memory
    }
}
