//! Why `open_base` refuses its texts.

ghost use Rattle.std.specs.Prelude.{◌≡◌};
ghost use Rattle.eco_base.specs.declared.fault.BaseFault.TheVariants.{Memory as OutOfMemory};

use eco_common::{Memory, Name};
use eco_def::DefFault;
use eco_func::FuncFault;
use eco_lef::LefFault;
use eco_net::Names;
use std::alloc::AllocError;
use thiserror::Error;

/// Why `open_base` refuses its texts: the first of these that applies, in their order. `Memory` may be returned for any
/// texts.
#[derive(Debug, Drop, Error)]
pub enum BaseFault {
    /// The LEF can't be read, and this is its first fault.
    #[error("Lef {0}")]
    Lef(LefFault),
    /// The DEF can't be read, and this is its first fault.
    #[error("Def {0}")]
    Def(DefFault),
    /// The functions file can't be read, and this is its first fault.
    #[error("Func {0}")]
    Func(FuncFault),
    /// The first field of the desk file that is at fault, or `file` where it is no TOML document.
    #[error("Desk field={field}")]
    Desk {
        field: Name,
    },
    /// The first component whose model isn't in the library.
    #[error("UnknownMaster comp={comp}")]
    UnknownMaster {
        comp: Name,
    },
    /// The first used master of the library whose pins aren't those that the functions file lists, supply pins aside, and
    /// the first such pin by bytes.
    #[error("FunctionPins master={master} pin={pin}")]
    FunctionPins {
        master: Name,
        pin: Name,
    },
    /// The first joint that names no component, no pin of its master or no top pin. `place` is its `(`, in bytes from 0.
    #[error("UnknownPin net={net} place={place}")]
    UnknownPin {
        net: Name,
        place: u32,
    },
    /// A pin that isn't supply stands on two nets: written `comp/pin`, with the net at its first place, and the first net
    /// in the text that differs from that.
    #[error("PinNetDiffers pin={pin} first={first} second={second}")]
    PinNetDiffers {
        pin: Name,
        first: Name,
        second: Name,
    },
    /// The first `*` in SPECIALNETS with a pin that isn't supply on some component's master.
    #[error("PatternOnSignal net={net} pin={pin}")]
    PatternOnSignal {
        net: Name,
        pin: Name,
    },
    /// The first net that has `USE POWER` in one statement and `USE GROUND` in another.
    #[error("SupplyDiffers net={net}")]
    SupplyDiffers {
        net: Name,
    },
    /// A tie net that is neither a supply of its value nor computed with that value by a gate without inputs that isn't
    /// spare-named. The one of `tie_high` comes first.
    #[error("TieNotConstant net={net}")]
    TieNotConstant {
        net: Name,
    },
    /// The stock has more than 32,768 spares.
    #[error("TooMuchStock count={count}")]
    TooMuchStock {
        count: usize,
    },
    /// A signal runs in a circle through gates that aren't in the stock.
    #[error("Loop nets={nets}")]
    Loop {
        nets: Names,
    },
    /// Memory ran out.
    #[error("memory")]
    Memory,
}

impl From<Memory> for BaseFault {
    ghost from_gives = { λ _ e. e ≡ OutOfMemory };

    fn from(_: Memory) -> BaseFault {
        BaseFault::Memory
    }
}

impl From<AllocError> for BaseFault {
    ghost from_gives = { λ _ e. e ≡ OutOfMemory };

    fn from(_: AllocError) -> BaseFault {
        BaseFault::Memory
    }
}
