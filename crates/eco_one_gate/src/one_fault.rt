//! Why one gate can't be put on one spare.

ghost use Rattle.std.specs.Prelude.{◌≡◌};
ghost use Rattle.eco_one_gate.specs.declared.one_fault.OneFault.TheVariants.{Memory as OutOfMemory};

use eco_common::Memory;
use std::alloc::{AllocError, AllocFailed};
use thiserror::Error;

/// Why `apply_one` refuses an order: the first reason there is.
#[derive(Clone, Copy, Debug, Drop, PartialEq, Eq, Error)]
pub enum OneFault {
    /// The component isn't stock, or its master has not exactly one output.
    #[error("NotSpare")]
    NotSpare,
    /// An input isn't a net, the output isn't of the form of a new net or is a net, the pin isn't an input of a component
    /// that is no stock or isn't on the net that it is moved from, the table has another number of inputs, or a signal
    /// would run in a circle.
    #[error("BadOrder")]
    BadOrder,
    /// The spare with its pins tied so isn't the gate.
    #[error("NotEmbedding")]
    NotEmbedding,
    #[error("memory")]
    Memory,
}

impl From<Memory> for OneFault {
    ghost from_gives = { λ _ e. e ≡ OutOfMemory };

    fn from(_: Memory) -> OneFault {
        OneFault::Memory
    }
}
