//! A frozen base, one patch gate on one spare of its stock, and the edits of its text that carry a patch out.
#![tactic(auto)]

mod apply_gate;
mod embedded;
mod gate_joints;
mod good_order;
mod laws;
mod named_pins;
mod one_fault;
mod one_gate;
mod patch_master;
mod patched;
mod spare;

pub use crate::apply_gate::apply_one;
pub use crate::laws::one_gate_applies;
pub use crate::one_fault::OneFault;
pub use crate::one_gate::OneGate;
