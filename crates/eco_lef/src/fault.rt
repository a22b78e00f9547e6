//! Why a text gives no library.

ghost use Rattle.std.specs.Prelude.{◌≡◌};
ghost use Rattle.eco_lef.specs.declared.fault.LefFault.TheVariants.{Memory as OutOfMemory};

use eco_common::{Memory, Name};
use eco_text::TextFault;
use std::alloc::{AllocError, AllocFailed};
use std::fmt;
use thiserror::Error;

/// The first fault of a text, with its place in bytes, or out of memory.
#[derive(Drop, Error)]
pub enum LefFault {
    /// A quoted word doesn't end.
    #[error("Text {0}")]
    Text(TextFault),
    /// The text ends within a block of this name. Outside named blocks it is the first word of the block or statement.
    #[error("Unended name={name}")]
    Unended { name: Name },
    /// A macro's name stands a second time, or a pin's name in one macro.
    #[error("TwiceNamed place={place}")]
    TwiceNamed { place: u32 },
    /// The name of the first macro for which there is no room.
    #[error("TooManyMasters place={place}")]
    TooManyMasters { place: u32 },
    /// An `ARRAY` block, which isn't read.
    #[error("ArrayBlock place={place}")]
    ArrayBlock { place: u32 },
    /// A word that can't stand there, or a number out of its range.
    #[error("BadStatement place={place}")]
    BadStatement { place: u32 },
    #[error("memory")]
    Memory,
}

impl fmt::Debug for LefFault {
    fn fmt<W: fmt::Write>(&self, f: &mut fmt::Formatter<W>) -> fmt::Result {
        fmt::Display::fmt(self, f)
    }
}

impl From<AllocError> for LefFault {
    ghost from_gives = { λ _ e. e ≡ OutOfMemory };

    fn from(_: AllocError) -> LefFault {
        LefFault::Memory
    }
}

impl<T: Drop> From<AllocFailed<T>> for LefFault {
    ghost from_gives = { λ _ e. e ≡ OutOfMemory };

    fn from(_: AllocFailed<T>) -> LefFault {
        LefFault::Memory
    }
}

impl From<Memory> for LefFault {
    ghost from_gives = { λ _ e. e ≡ OutOfMemory };

    fn from(_: Memory) -> LefFault {
        LefFault::Memory
    }
}
