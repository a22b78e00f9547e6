//! Why a design has no netlist.

ghost use Rattle.std.specs.Prelude.{◌≡◌};
ghost use Rattle.eco_elaborate.specs.declared.fault.DesignFault.TheVariants.{Memory as OutOfMemory};

use eco_common::Memory;
use std::alloc::{AllocError, AllocFailed};
use thiserror::Error;

/// Why a design has no netlist, or that memory ran out.
#[derive(Clone, Copy, Debug, Drop, PartialEq, Eq, Error)]
pub enum DesignFault {
    /// A component's model is no macro.
    #[error("UnknownMacro")]
    UnknownMacro,
    /// A joint names no component, or no pin of its macro.
    #[error("UnknownPin")]
    UnknownPin,
    /// A pin stands on two nets.
    #[error("PinNetDiffers")]
    PinNetDiffers,
    /// A net has `USE POWER` in one statement and `USE GROUND` in another.
    #[error("SupplyDiffers")]
    SupplyDiffers,
    #[error("memory")]
    Memory,
}

impl From<Memory> for DesignFault {
    ghost from_gives = { λ _ e. e ≡ OutOfMemory };

    fn from(_: Memory) -> DesignFault {
        DesignFault::Memory
    }
}

impl From<AllocError> for DesignFault {
    ghost from_gives = { λ _ e. e ≡ OutOfMemory };

    fn from(_: AllocError) -> DesignFault {
        DesignFault::Memory
    }
}

impl<T: Drop> From<AllocFailed<T>> for DesignFault {
    ghost from_gives = { λ _ e. e ≡ OutOfMemory };

    fn from(_: AllocFailed<T>) -> DesignFault {
        DesignFault::Memory
    }
}
