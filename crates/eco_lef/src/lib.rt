//! Masters of LEF texts: LEF/DEF 5.8 Language Reference, in the profile of docs/FORMATS.md.
#![tactic(auto)]

ghost use Rattle.eco_lef.specs.Limits.{LimitsKeep};
ghost use Rattle.eco_lef.specs.Names.{NamesDiffer, NamesAreWords};

mod blocks;
mod fault;
mod library;
mod library_statements;
mod macro_statements;
mod master;
mod names;
mod pin_list;
mod pin_statements;
mod read;
mod reader;
mod statement;

pub use crate::fault::LefFault;
pub use crate::library::Library;
pub use crate::master::{Master, MasterPin};
pub use crate::read::read_lef;

/// A law of limits: within a limit a text gives its library where that has no more masters, and else its own fault or the
/// name of the first macro too many, whichever stands first.
pub fn limits_keep_libraries()
    ensures { LimitsKeep }
{}

/// A law of names: in a library no two masters have one name, and no two pins of a master.
pub fn names_stand_once()
    ensures { NamesDiffer }
{}

/// A law of names: each name of a master and of a pin is a word that a text can have as a name.
pub fn names_are_words()
    ensures { NamesAreWords }
{}
