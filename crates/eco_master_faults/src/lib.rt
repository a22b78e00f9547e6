//! What the masters of a library are for a netlist, and whether they fit a design and the functions file.
#![tactic(auto)]

mod check;
mod differing;
mod differing_master;
mod fault;
mod pins;
mod table;
mod unknown;
mod used;

pub use crate::check::check_masters;
pub use crate::differing_master::first_differing;
pub use crate::fault::MasterFault;
pub use crate::table::MasterTable;
pub use crate::unknown::first_unknown;
pub use crate::used::{Models, used_models};
