//! The test of a spare.

ghost use Rattle.std.specs.Prelude.{◌≡◌, MatchOption};
ghost use Rattle.std.specs.List.{position};
ghost use Rattle.std.specs.Str.{bytes_eq};
ghost use Rattle.eco_base.specs.Bases.{frozen};
ghost use Rattle.eco_one_gate.specs.OneGates.{IsOneSpare};
ghost use Rattle.eco_one_gate.specs.OneSteps.{IsSpareGate};

use eco_base::{Base, Spare};
use eco_func::MasterFn;

/// The place of the spare of a name.
fn place_in(stock: &[Spare], name: &[u8]) -> Option<usize>
    ensures { result ≡ position (λ s. bytes_eq s.name name.now) stock.now }
{
    stock.iter().position(|spare| spare.name.is(name))
}

/// The master of a component that is stock, if it has one output.
pub(crate) fn spare_master<'a>(base: &'a Base, name: &[u8]) -> Option<&'a MasterFn>
    ensures { MatchOption result (¬ IsOneSpare (frozen base.now.texts) name.now) (λ m. IsSpareGate (frozen base.now.texts) name.now m.now) }
{
    let Some(place) = place_in(base.stock(), name) else {
        return None;
    };
    let master = base.spare_fn(place as u32);
    if master.outputs().len() == 1 {
        Some(master)
    } else {
        None
    }
}
