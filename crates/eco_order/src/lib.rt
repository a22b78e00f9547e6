//! The rules that a change order can break on a netlist, the netlist with the order inserted, and where its gates should be.
#![tactic(auto)]

mod before;
mod driving;
mod gates;
mod insertion;
mod joints;
mod laws;
mod lookups;
mod moves;
mod nets;
mod redriven;
mod walks;

pub use crate::before::broken_before;
pub use crate::driving::is_driven_once;
pub use crate::insertion::insert;
pub use crate::laws::unbroken_keeps_rules;
pub use crate::walks::closed_walk;
