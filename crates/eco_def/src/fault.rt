//! Why a text gives no design.

ghost use Rattle.std.specs.Prelude.{◌≡◌};
ghost use Rattle.eco_def.specs.declared.fault.DefFault.TheVariants.{Memory};

use eco_text::TextFault;
use std::alloc::{AllocError, AllocFailed};
use std::fmt;
use std::fmt::Display;
use thiserror::Error;

/// What a design must have.
#[derive(Clone, Copy, Debug, Drop, PartialEq, Eq)]
pub enum Section {
    Units,
    Components,
    Nets,
}

impl Display for Section {
    fn fmt<W: fmt::Write>(&self, f: &mut fmt::Formatter<W>) -> fmt::Result {
        match self {
            Section::Units => write!(f, "UNITS"),
            Section::Components => write!(f, "COMPONENTS"),
            Section::Nets => write!(f, "NETS"),
        }
    }
}

/// The first fault of a text, with its place in bytes, or out of memory.
#[derive(Clone, Copy, Debug, Drop, PartialEq, Eq, Error)]
pub enum DefFault {
    /// A quoted word doesn't end.
    #[error("Text {0}")]
    Text(TextFault),
    /// A word at the top level that begins no known section or statement.
    #[error("UnknownHeading place={place}")]
    UnknownHeading { place: u32 },
    /// The text ends within a section or statement. The place is the end of the text.
    #[error("Unended place={place}")]
    Unended { place: u32 },
    /// A word that can't stand there.
    #[error("BadStatement place={place}")]
    BadStatement { place: u32 },
    /// A name or a section stands a second time.
    #[error("TwiceNamed place={place}")]
    TwiceNamed { place: u32 },
    /// A `MUSTJOIN` net.
    #[error("MustJoin place={place}")]
    MustJoin { place: u32 },
    /// The name of the first statement, or the `(` of the first joint, for which there is no room.
    #[error("Limit place={place}")]
    Limit { place: u32 },
    /// The text has no such section.
    #[error("Missing which={which}")]
    Missing { which: Section },
    #[error("memory")]
    Memory,
}

impl From<AllocError> for DefFault {
    ghost from_gives = { λ _ e. e ≡ Memory };

    fn from(_: AllocError) -> DefFault {
        DefFault::Memory
    }
}

impl<T: Drop> From<AllocFailed<T>> for DefFault {
    ghost from_gives = { λ _ e. e ≡ Memory };

    fn from(_: AllocFailed<T>) -> DefFault {
        DefFault::Memory
    }
}
