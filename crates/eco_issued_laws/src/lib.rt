//! Issued texts: the text of a design whose nets have other joints, and the design that is read back from it.
//!
//! This crate has definitions and laws. Its only code that runs are tests on names.
#![tactic(auto)]

mod component_name;
mod laws;
mod new_nets;

pub use crate::component_name::is_no_component;
pub use crate::laws::{designs_are_bounded, nothing_issued, outside, reads_back, standing_issued};
pub use crate::new_nets::can_be_new;
