//! The command `move`.

ghost use Rattle.std.specs.Prelude.{◌≡◌, ◌≤◌, length, [], ◌∷◌};
ghost use Rattle.eco_cli.specs.MoveCommand.{move_of, MoveGives, MoveRefuses};
ghost use Rattle.eco_cli.specs.Steps.{Plans};

use crate::failure::Failure;
use crate::issued::Issued;
use crate::move_words::MoveWords;
use crate::plan::Plan;
use crate::refusal::Refusal;
use eco_base::{MoveFault, move_joint};
use eco_common::MAX_DEF_BYTES;
use eco_def::{DefFault, read_def};
use std::alloc::Global;

/// Reads the DEF, and moves the pin in it.
pub fn plan_move(alloc: Global, text: Vec<u8>, asked: &MoveWords<'_>) -> Result<Plan, Failure>
    requires { length text.items ≤ MAX_DEF_BYTES }
    ensures { Plans (MoveGives (move_of asked.now) (text.items ∷ [])) (MoveRefuses (move_of asked.now) (text.items ∷ [])) result }
{
    let design = match read_def(alloc, &text) {
        Ok(design) => design,
        Err(DefFault::Memory) => return Err(Failure::Memory),
        Err(fault) => return Err(Failure::Refused(Refusal::Def(fault))),
    };
    let comp = asked.comp.as_bytes();
    let pin = asked.pin.as_bytes();
    let from = asked.from.as_bytes();
    let to = asked.to.as_bytes();
    match move_joint(alloc, &text, &design, comp, pin, from, to) {
        Ok(overlay) => Ok(Plan::Issued(Issued {
            text,
            design,
            overlay,
        })),
        Err(MoveFault::Memory) => Err(Failure::Memory),
        Err(fault) => Err(Failure::Refused(Refusal::Move(fault))),
    }
}
