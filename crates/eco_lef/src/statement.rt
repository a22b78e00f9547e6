//! What the statements of a library say.

use crate::master::{Master, MasterPin};
use eco_common::{Dir, Size};

/// A statement in a pin. `Used` says whether the use is POWER or GROUND.
#[derive(Drop)]
pub enum PinStatement {
    Directed(Dir),
    Used(bool),
    Other,
}

/// A statement in a macro.
#[derive(Drop)]
pub enum MacroStatement {
    Sized(Size),
    Pinned(MasterPin),
    Other,
}

/// A statement at the library level.
#[derive(Drop)]
pub enum LibraryStatement {
    Defined(Master),
    Other,
}
