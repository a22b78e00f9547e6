//! Why a text gives no functions.

ghost use Rattle.std.specs.Prelude.{◌≡◌};
ghost use Rattle.eco_func.specs.declared.fault.FuncFault.TheVariants.{Memory as OutOfMemory};

use eco_common::{Memory, Name};
use std::alloc::AllocFailed;
use thiserror::Error;

/// Why `read_functions` refuses a text: its first fault, in the order of the masters' names by bytes, and of each master
/// inputs, outputs, other fields.
#[derive(Debug, Drop, Error)]
pub enum FuncFault {
    /// The text is no TOML document.
    #[error("BadToml")]
    BadToml,
    /// A field is missing, is no field of a master, or has another form.
    #[error("BadField master={master} field={field}")]
    BadField {
        master: Name,
        field: Name,
    },
    /// A master has more than six inputs.
    #[error("TooManyInputs master={master}")]
    TooManyInputs {
        master: Name,
    },
    /// A table's text hasn't a character for each row.
    #[error("BadTable master={master} output={output}")]
    BadTable {
        master: Name,
        output: Name,
    },
    /// An expression can't go on at this place, in bytes from 0 of its text. At the end the place is the text's length.
    #[error("BadExpression master={master} output={output} place={place}")]
    BadExpression {
        master: Name,
        output: Name,
        place: u32,
    },
    /// An expression names something that is no input. The first such name is `input`.
    #[error("UnknownInput master={master} output={output} input={input}")]
    UnknownInput {
        master: Name,
        output: Name,
        input: Name,
    },
    /// The file has more than 16,384 masters.
    #[error("TooManyMasters count={count}")]
    TooManyMasters {
        count: usize,
    },
    /// Out of memory.
    #[error("memory")]
    Memory,
}

impl From<Memory> for FuncFault {
    ghost from_gives = { λ _ e. e ≡ OutOfMemory };

    fn from(_: Memory) -> FuncFault {
        FuncFault::Memory
    }
}

impl<T: Drop> From<AllocFailed<T>> for FuncFault {
    ghost from_gives = { λ _ e. e ≡ OutOfMemory };

    fn from(_: AllocFailed<T>) -> FuncFault {
        FuncFault::Memory
    }
}
