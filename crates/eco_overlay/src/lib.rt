//! Edits of a DEF text that put pins on other nets, and the writing of the edited text.
#![tactic(auto)]

mod bytes;
mod coming;
mod fault;
mod fresh;
mod issuing;
mod moves;
mod moving;
mod names;
mod net_changes;
mod new_joint;
mod of_joints;
mod overlay;
mod pin_move;
mod standing;
mod statement;
mod stretch;
mod writer;

pub use crate::fault::MoveFault;
pub use crate::moving::move_joint;
pub use crate::new_joint::NewJoint;
pub use crate::overlay::Overlay;
pub use crate::writer::{emit, emit_len};
