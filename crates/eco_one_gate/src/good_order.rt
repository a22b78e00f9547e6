//! The test of an order of one gate, but for circles.

ghost use Rattle.std.specs.Prelude.{◌≡◌, ◌&&◌, not, is_some, MatchOption};
ghost use Rattle.std.specs.List.{list_all};
ghost use Rattle.std.specs.FinMap.{get};
ghost use Rattle.eco_net.specs.Listing.{netlist as listed};
ghost use Rattle.eco_net.specs.Kept.{IsListing};
ghost use Rattle.eco_issued_laws.specs.NewNets.{can_be_new as can_name_new};
ghost use Rattle.eco_one_gate.specs.OneSteps.{MovesInput, IsMovedPin, IsKnownOrder};

use crate::named_pins::{is_input, is_named, net_at};
use crate::one_gate::OneGate;
use eco_common::Name;
use eco_issued_laws::can_be_new;
use eco_net::{CompId, Netlist};

/// Whether the name is that of a net.
fn is_net(netlist: &Netlist, name: &[u8]) -> bool
    requires { IsListing netlist.now }
    ensures { result ≡ is_some (get (listed netlist.now).nets name.now) }
{
    netlist.find_net(name).is_some()
}

/// Whether each name is that of a net.
fn are_nets(netlist: &Netlist, names: &[Name]) -> bool
    requires { IsListing netlist.now }
    ensures { result ≡ list_all (λ n. is_some (get (listed netlist.now).nets n)) names.now }
{
    names.iter().all(|name| is_net(netlist, name.bytes()))
}

/// The numbers of the moved pin, if it is an input of a component and on the net that it leaves.
fn moved_pin(netlist: &Netlist, one: &OneGate) -> Option<(CompId, u32)>
    requires { IsListing netlist.now }
    ensures { MatchOption result (¬ MovesInput (listed netlist.now) one.now) (λ p. IsMovedPin netlist.now one.now p.0 p.1) }
{
    let Some(comp) = netlist.find_comp(one.comp.bytes()) else {
        return None;
    };
    let Some(pin) = netlist.find_pin(comp, one.pin.bytes()) else {
        return None;
    };
    if !is_input(netlist, comp, pin) {
        return None;
    }
    if is_named(net_at(netlist, comp, pin), one.from_net.bytes()) {
        Some((comp, pin))
    } else {
        None
    }
}

/// Whether the output can be a new net and is none, and each input is a net.
fn knows_names(netlist: &Netlist, one: &OneGate) -> bool
    requires { IsListing netlist.now }
    ensures { result ≡ (can_name_new one.now.output && not (is_some (get (listed netlist.now).nets one.now.output)) && list_all (λ n. is_some (get (listed netlist.now).nets n)) one.now.inputs.items) }
{
    let output = one.output.bytes();
    can_be_new(output) && !is_net(netlist, output) && are_nets(netlist, &one.inputs)
}

/// The numbers of the moved pin, if each input is a net, the output can be a new one and is none, the table has as many
/// inputs, and the pin can be moved.
pub(crate) fn known_order(netlist: &Netlist, one: &OneGate) -> Option<(CompId, u32)>
    requires { IsListing netlist.now }
    ensures { MatchOption result (¬ IsKnownOrder (listed netlist.now) one.now) (λ p. IsKnownOrder (listed netlist.now) one.now × IsMovedPin netlist.now one.now p.0 p.1) }
{
    if !knows_names(netlist, one) {
        return None;
    }
    if one.inputs.as_slice().len() != one.table.inputs() as usize {
        return None;
    }
    moved_pin(netlist, one)
}
