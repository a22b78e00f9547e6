//! Rule 13: no closed walk of computed nets.

ghost use Rattle.std.specs.Prelude.{◌≡◌, IfOk};
ghost use Rattle.eco_net.specs.Listing.{netlist};
ghost use Rattle.eco_order.specs.Broken.{IsWalkOrNone};

use eco_common::{Memory, Name};
use eco_net::{LoopFault, Netlist};
use eco_order_file::{NameList, Rule};
use std::alloc::Global;

/// The same names.
fn copied(alloc: Global, names: &[Name]) -> Result<Vec<Name>, Memory>
    ensures { IfOk result (λ copied. copied.items ≡ names.now) }
{
    let mut copied = Vec::with_capacity(alloc, names.len())?;
    for name in names {
        copied.push(name.copy(alloc)?)?;
    }
    Ok(copied)
}

/// Rule 13 on the whole patched netlist.
pub fn closed_walk(alloc: Global, patched: &Netlist) -> Result<Option<Rule>, Memory>
    ensures { IfOk result (λ broken. IsWalkOrNone (netlist patched.now) broken) }
{
    match patched.levels(alloc) {
        Ok(_) => Ok(None),
        Err(LoopFault::Loop { nets }) => {
            let names = copied(alloc, nets.as_slice())?;
            Ok(Some(Rule::Loop {
                nets: NameList::of(names),
            }))
        }
        Err(LoopFault::Memory) => Err(Memory),
    }
}
