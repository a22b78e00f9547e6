//! Why a pin can't be moved.

ghost use Rattle.std.specs.Prelude.{◌≡◌};
ghost use Rattle.eco_overlay.specs.declared.fault.MoveFault.TheVariants.{Memory};

use std::alloc::AllocError;
use thiserror::Error;

/// Why `move_joint` refuses a move, the first reason that holds, or out of memory.
#[derive(Clone, Copy, Debug, Drop, PartialEq, Eq, Error)]
pub enum MoveFault {
    /// No component has the name. `PIN` and `*` name none.
    #[error("UnknownComponent")]
    UnknownComponent,
    /// No statement of the net has that pin.
    #[error("NotOnNet")]
    NotOnNet,
    /// The design has no net of the name.
    #[error("UnknownNet")]
    UnknownNet,
    #[error("memory")]
    Memory,
}

impl From<AllocError> for MoveFault {
    ghost from_gives = { λ _ e. e ≡ Memory };

    fn from(_: AllocError) -> MoveFault {
        MoveFault::Memory
    }
}
