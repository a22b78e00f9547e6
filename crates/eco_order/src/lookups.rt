//! What a netlist has at a name.

ghost use Rattle.std.specs.Prelude.{◌≡◌, ◌||◌, option_map, option_copied};
ghost use Rattle.std.specs.FinMap.{get, contains_key};
ghost use Rattle.eco_net.specs.Listing.{netlist};
ghost use Rattle.eco_net.specs.Netlist.{CompPin};
ghost use Rattle.eco_net.specs.Drivers.{net_of as net_of_pin};
ghost use Rattle.eco_order.specs.Rules.{dir_at, is_fixed as is_fixed_net};

use eco_common::Dir;
use eco_net::{Netlist, PinRef};

/// Whether it has a net of this name.
pub fn has_net(net: &Netlist, name: &[u8]) -> bool
    ensures { result ≡ contains_key (netlist net.now).nets name.now }
{
    net.facts();
    match net.find_net(name) {
        Some(_) => true,
        None => false,
    }
}

/// Whether it has a supply or a tie net of this name.
pub fn is_fixed(net: &Netlist, name: &[u8]) -> bool
    ensures { result ≡ is_fixed_net (netlist net.now) name.now }
{
    net.facts();
    match net.find_net(name) {
        Some(number) => net.supply(number).is_some() || net.is_tie(number),
        None => false,
    }
}

/// Which way a component's pin goes.
pub fn dir_of(net: &Netlist, comp: &[u8], pin: &[u8]) -> Option<Dir>
    ensures { result ≡ dir_at (get (netlist net.now).comps comp.now) pin.now }
{
    net.facts();
    let comp = net.find_comp(comp)?;
    let pin = net.find_pin(comp, pin)?;
    Some(net.pin_dir(comp, pin))
}

/// The net that a component's pin is on.
pub fn present_net<'a>(net: &'a Netlist, comp: &[u8], pin: &[u8]) -> Option<&'a [u8]>
    ensures { option_copied result ≡ net_of_pin (netlist net.now) (CompPin comp.now pin.now) }
{
    net.facts();
    let comp = net.find_comp(comp)?;
    let pin = net.find_pin(comp, pin)?;
    let number = net.net_of(PinRef::Pin(comp, pin))?;
    Some(net.net_name(number))
}
