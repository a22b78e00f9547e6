//! The desk file: the two tie nets of a chip, and how names of spare cells begin.
//!
//! The desk file is a small TOML document of this project's own form.
#![tactic(auto)]

mod desk;
mod document;
mod fault;
mod names;
mod read;

pub use crate::desk::DeskFile;
pub use crate::fault::DeskFault;
pub use crate::read::read_desk;
