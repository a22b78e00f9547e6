//! Pins that are inputs, and the nets that pins are on, by name.

ghost use Rattle.std.specs.Prelude.{◌≡◌, ◌↔◌, Some, IsTrue, slice_get, option_copied};
ghost use Rattle.std.specs.Option.{option_map};
ghost use Rattle.eco_common.specs.declared.geometry.Dir.TheVariants.{Input};
ghost use Rattle.eco_net.specs.declared.ids.PinRef.{PinRef};
ghost use Rattle.eco_net.specs.Drivers.{net_of, dir_of_role};
ghost use Rattle.eco_net.specs.ByNumber.{role_at};
ghost use Rattle.eco_net.specs.Listing.{netlist as listed, numbered_pin, IsKnownPin};

use eco_common::Dir;
use eco_net::{CompId, Netlist, PinRef};

/// Whether a pin is an input, of a gate or a box.
pub(crate) fn is_input(netlist: &Netlist, comp: CompId, pin: u32) -> bool
    requires { IsKnownPin netlist.now (PinRef.Pin comp pin) }
    ensures { IsTrue result ↔ (option_map dir_of_role (role_at (slice_get netlist.now.comps comp.0) pin) ≡ Some Input) }
{
    match netlist.pin_dir(comp, pin) {
        Dir::Input => true,
        Dir::Output | Dir::Inout => false,
    }
}

/// The name of the net that a pin is on.
pub(crate) fn net_at(netlist: &Netlist, comp: CompId, pin: u32) -> Option<&[u8]>
    requires { IsKnownPin netlist.now (PinRef.Pin comp pin) }
    ensures { option_copied result ≡ net_of (listed netlist.now) (numbered_pin netlist.now (PinRef.Pin comp pin)) }
{
    match netlist.net_of(PinRef::Pin(comp, pin)) {
        Some(net) => Some(netlist.net_name(net)),
        None => None,
    }
}

/// Whether the net has the name.
pub(crate) fn is_named(net: Option<&[u8]>, name: &[u8]) -> bool
    ensures { IsTrue result ↔ (option_copied net.entry ≡ Some name.now) }
{
    match net {
        Some(net) => net == name,
        None => false,
    }
}
