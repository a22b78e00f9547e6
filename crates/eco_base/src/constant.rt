//! Outputs of gates without inputs.

ghost use Rattle.std.specs.Prelude.{◌≡◌, ◌↔◌, IsTrue, Some};
ghost use Rattle.eco_base.specs.Constants.{constant_in, constant_at};

use eco_func::MasterFn;
use eco_net::Kind;

/// The value of an output of a master without inputs.
fn constant_in(master: &MasterFn, output: usize) -> Option<bool>
    ensures { result ≡ constant_in master.now output }
{
    if !master.inputs().is_empty() {
        return None;
    }
    let output = master.outputs().get(output)?;
    Some(output.table.at(0))
}

/// The value of a pin of a gate without inputs, whose pins are its outputs.
fn constant_at(kind: &Kind, pin: u32) -> Option<bool>
    ensures { result ≡ constant_at kind.now pin }
{
    match kind {
        Kind::Gate(master) => constant_in(master, pin as usize),
        Kind::Boxed(_) => None,
    }
}

/// Whether a pin of a component is an output of this value of a gate without inputs.
pub fn is_constant(kind: &Kind, pin: u32, value: bool) -> bool
    ensures { IsTrue result ↔ (constant_at kind.now pin ≡ Some value) }
{
    match constant_at(kind, pin) {
        Some(found) => found == value,
        None => false,
    }
}
