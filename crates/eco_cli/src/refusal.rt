//! Why the texts of the inputs, or what is asked in them, are refused.

use eco_base::{BaseFault, MoveFault};
use eco_def::DefFault;
use eco_one_gate::OneFault;

/// Why a command refuses what it read.
#[derive(Debug, Drop)]
pub enum Refusal {
    /// The DEF has no design, and this is its first fault.
    Def(DefFault),
    /// The move is refused.
    Move(MoveFault),
    /// The texts are those of no base.
    Base(BaseFault),
    /// The order of one gate is refused.
    Apply(OneFault),
}
